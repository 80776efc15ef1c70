// Clock banks: what turns a node's own count into a reading in milliseconds.
#![tactic(auto)]

pub mod backstep;
pub mod bank;
pub mod day;
mod highs;
pub mod never_backwards;
pub mod offset;
pub mod offset_layer;
pub mod reading;
pub mod runs;
pub mod sample;
pub mod tick;
pub mod tick_counters;
pub mod trace_clocks;
