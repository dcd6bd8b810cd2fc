//! The loop of a relay between two devices: each connection that is accepted has one dialled for it, and octets are passed both ways, but for what a script
//! says.
//!
//! What is given for what comes is defined in relay_model and made by relay_carrier. Here stands what surrounds it: what waits, moments, printed lines, ends
//! and closes. Each line is written before what it tells is done.
#![tactic(auto)]

mod fault;
pub mod laws;
mod lines;
mod link;
mod live_relay;
mod piece;
mod printing;
mod reading;
mod sending;
mod stamp;
mod way;
mod workspace;

pub use fault::RelayFault;
pub use live_relay::{MOST_CONNECTIONS, relay};
