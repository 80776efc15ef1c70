// Histories, and for each clause of the law of whole runs entries that break it alone. Each function answers `true`; its contract
// has the check ask for the proof.
#![tactic(auto)]

pub mod clauses;
pub mod histories;
