// Records as a person writes them: the words of a line to the record that they spell.
#![tactic(auto)]

pub mod key;
pub mod record;
mod verb;
