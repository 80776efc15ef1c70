// Sheets that are written out, to hold others against.
#![tactic(auto)]

pub mod examples;
