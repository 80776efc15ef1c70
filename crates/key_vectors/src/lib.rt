// Known names, and whether they are tags.
#![tactic(auto)]

#[cfg(test)]
mod tags;
