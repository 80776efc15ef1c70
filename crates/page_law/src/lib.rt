// The law of whole runs, said of the page of a trace at a stamp, and that a final page stays.
#![tactic(auto)]

pub mod later;
pub mod law;
