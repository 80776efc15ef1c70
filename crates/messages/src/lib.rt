// The messages that are under way between the nodes.
#![tactic(auto)]

pub mod message;
pub mod messages;
