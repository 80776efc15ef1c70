// Stamps of a hybrid logical clock, and the rules by which an event gets its own.
#![tactic(auto)]

pub mod code;
pub mod lead;
pub mod order;
pub mod rules;
pub mod stamp;
pub mod stamped;
