// The events of the nodes, puts left out, and the messages between them.
#![tactic(auto)]

mod close;
pub mod exchange;
mod loss;
mod note;
mod receipt;
mod send;
