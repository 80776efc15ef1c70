// The lines of a listing: one for each record, and the last ones.
#![tactic(auto)]

pub mod end;
pub mod outcome;
