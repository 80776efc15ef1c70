// A second inspector's page, written from docs/RULES.md alone. It keeps each record of a trace with its answer, and goes through
// them all for every line.
//
// No function has a clause (`naive` says why).
#![tactic(auto)]

pub mod page;
mod puts;
pub mod replayed;
