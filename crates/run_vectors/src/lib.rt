// A known run, and what must come of it.
#![tactic(auto)]

#[cfg(test)]
mod runs;
