// What the program `page` does.
#![tactic(auto)]

pub mod arguments;
pub mod printing;
