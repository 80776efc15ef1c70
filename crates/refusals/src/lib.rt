// The refusals that every crate of the recorder shares.
#![tactic(auto)]

pub mod refusal;
