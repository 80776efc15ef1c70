// What a setpoint belongs to: kinds of keys, and the two that the plant has.
#![tactic(auto)]

pub mod kind;
pub mod point;
pub mod tag;
