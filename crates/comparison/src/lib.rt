// Traces that are listed twice, and where the two listings part. No function has a clause (`naive` says why).
#![tactic(auto)]

pub mod comparison;
