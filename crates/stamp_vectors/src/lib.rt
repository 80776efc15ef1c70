// Known events, and the stamps that they must have.
#![tactic(auto)]

#[cfg(test)]
mod events;
