// What two pages of a trace are asked for, to compare them. No function has a clause (`naive` says why).
#![tactic(auto)]

pub mod requests;
