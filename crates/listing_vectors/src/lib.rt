// Known traces, and how they must be listed.
#![tactic(auto)]

#[cfg(test)]
mod traces;
