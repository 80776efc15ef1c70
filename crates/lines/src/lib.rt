// Lines of words and numbers, added to a text.
#![tactic(auto)]

pub mod line;
pub mod text;
