// The lines of a sheet.
#![tactic(auto)]

pub mod head;
pub mod held_back;
pub mod names;
pub mod numbers;
pub mod puts;
pub mod rows;
