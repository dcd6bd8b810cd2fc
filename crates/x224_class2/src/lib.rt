//! One side of a connection of ITU-T X.224 class 2 with explicit flow control (clauses 6 and 10): a
//! [`Transport`] reads the TPDUs that come and gives those that go, cuts messages into segments and joins
//! them, and acknowledges a message once its user took it.
//!
//! The references, the greatest lengths, what is refused and with which reasons are this profile's. TPDUs
//! travel in network blocks, which are another layer's.

#![tactic(auto)]

mod credit;
mod deed;
pub mod laws;
mod number;
mod outgoing;
mod size;
mod stage;
mod transport;

pub use deed::{Full, TransportDeed};
pub use transport::Transport;

#[cfg(test)]
mod tests;
