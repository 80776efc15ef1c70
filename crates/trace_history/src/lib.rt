// The events of a trace, with the numbers of their records; what each node stamped last, and which event put a version.
#![tactic(auto)]

pub mod events;
pub mod last;
pub mod source;
