// A second implementation of the listing, written from docs/RULES.md alone. It keeps the whole history, and goes through it for every
// answer.
//
// The functions here have no clauses: they are proved to be safe and to return, and no more. This crate is evidence from outside, and
// clauses that cite the definitions of the other crates would make it the same program again.
#![tactic(auto)]

pub mod answers;
mod events;
pub mod listing;
pub mod stamp_rules;
pub mod tally;
