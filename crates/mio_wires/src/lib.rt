//! Wires over TCP sockets, the trusted edge of the stack to the network: a few lines a call over `mio`. The application of a loop comes by a socket of the
//! Unix domain.
//!
//! This profile's own. It is proved against the trait, and tells nothing of what a socket holds or delivers: that it
//! reaches the real thing is shown by the tests of test_wires.
#![tactic(auto)]

mod accepting;
mod door;
mod faults;
pub mod laws;
mod leavers;
mod leaving;
mod lines;
mod moments;
mod options;
mod queue;
mod sockets;
mod stream;
mod wires;

pub use faults::WireFault;
pub use lines::MOST_CONNECTIONS;
pub use options::set_for_frames;
pub use wires::MioWires;
