// Sheets of a trace that are made twice, and where the two part. No function has a clause (`naive` says why).
#![tactic(auto)]

pub mod comparison;
