//! The outside of the stack, as traits: cabinets of files, sinks of octets, clocks, and wires to peers.
//!
//! This profile's own. What an object holds is an optional meaning: one in memory tells it, and a real one doesn't. Each
//! counts its faults. What a real file holds, and whether a printed octet is ever read, no clause can say. The objects in
//! memory stand in link_memory, and the real ones in er_program and mio_wires.
#![tactic(auto)]

mod cabinet;
mod clock;
mod sink;
mod wires;

pub use cabinet::{Cabinet, FetchFault};
pub use clock::Clock;
pub use sink::{Failed, Sink};
pub use wires::{Conn, Happening, ReadAnswer, Wires, WriteAnswer};
