// The sheet of a trace: the page at a stamp, with what the inspector asks.
#![tactic(auto)]

pub mod no_page;
mod printing;
pub mod request;
pub mod sheet;
