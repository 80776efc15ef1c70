// The run that a trace makes of a recorder: its records, its set-up and its calls.
#![tactic(auto)]

pub mod calls;
pub mod reading;
pub mod setup;
