// Traces by hand: a text to the bytes of the trace that it spells.
#![tactic(auto)]

mod line;
pub mod program;
pub mod text;
