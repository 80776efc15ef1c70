// Known clocks, and what they must read.
#![tactic(auto)]

#[cfg(test)]
mod readings;
