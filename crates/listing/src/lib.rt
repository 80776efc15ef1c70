// The listing: a trace's bytes to the text that is printed.
#![tactic(auto)]

mod outcomes;
pub mod report;
mod run;
