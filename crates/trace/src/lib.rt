// The trace: what the nodes wrote, as records in bytes.
#![tactic(auto)]

pub mod kind;
pub mod reader;
pub mod records;
pub mod round;
pub mod writer;
