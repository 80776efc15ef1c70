// Traces that are made by plans, from a seed: to be listed twice.
#![tactic(auto)]

mod plans;
mod random;
mod source;
pub mod traces;
