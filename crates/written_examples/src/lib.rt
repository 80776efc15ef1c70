// The written examples of docs/RULES.md. No function has a clause (`naive` says why).
#![tactic(auto)]

pub mod examples;
