// A trace's calls through `replay`: what they answer, the page at a stamp behind them, and the history that they come to.
#![tactic(auto)]

pub mod answers;
pub mod page;
pub mod stores;
