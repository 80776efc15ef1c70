// The clocks of the nodes and the stamps of their last events: what an event's stamp is made from.
#![tactic(auto)]

mod last_stamps;
pub mod settings;
pub mod stamper;
