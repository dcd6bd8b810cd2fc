//! The carrier of a relay: it cuts what comes from one side of a connection into units and other octets, and answers what is given for each to the other
//! side, and when.
//!
//! It reads and writes nothing itself. What it gives is defined in relay_model, on all octets that came, whichever way they were cut.
#![tactic(auto)]

mod came;
mod carrier;
mod counts;
mod cutter;
mod load;
mod naming;
mod stage;
mod unit_kinds;

pub use came::CutOutcome;
pub use carrier::{CarriedOctets, Carrier};
