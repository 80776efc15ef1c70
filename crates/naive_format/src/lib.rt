// The trace's format once more, written from docs/RULES.md alone: records, a decoder and an encoder. No function has a clause (`naive`
// says why).
#![tactic(auto)]

pub mod decoder;
pub mod encoder;
pub mod records;
