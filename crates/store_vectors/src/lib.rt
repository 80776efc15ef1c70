// Known versions, and what both stores must answer of them.
#![tactic(auto)]

#[cfg(test)]
mod stores;
