// Whole runs: any list of calls to a fresh recorder, and the law that every run keeps.
#![tactic(auto)]

mod ask;
pub mod call;
pub mod replay;
