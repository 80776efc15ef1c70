// The recorder: what the boxes wrote goes in event by event, and the plant as it stood at a stamp comes out.
#![tactic(auto)]

pub mod closed;
pub mod empty_store;
pub mod examples;
pub mod open;
