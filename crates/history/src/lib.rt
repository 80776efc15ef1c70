// What holds of every run, as mathematics. Each function answers `true`; its contract has the check ask for the proof.
#![tactic(auto)]

pub mod answers;
pub mod law;
pub mod orders;
pub mod settled;
