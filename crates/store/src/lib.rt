// What was put, version by version, and what every store of versions answers.
#![tactic(auto)]

pub mod agree;
pub mod cut;
pub mod listable;
pub mod version;
pub mod version_store;
