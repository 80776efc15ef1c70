// What the law of whole runs says of the answers alone, and a run that is written out.
#![tactic(auto)]

pub mod examples;
pub mod words;
