//! The session of one connection in a readiness loop: its end, its user, and the octets that wait to be written (this profile).
//!
//! Each event is given to the end, its lines are written, and its octets join those that wait. The user hears of it, and what the user
//! says follows as events. The definitions stand in `loop_model`. Here no wires are called: `loop_io` does that.
#![tactic(auto)]

mod event_lines;
mod events;
mod gives;
mod gone;
mod hearing;
mod join;
pub mod laws;
mod loop_fault;
mod parting;
mod ranges;
mod replying;
mod scratch;
mod session;
mod session_event;
mod when;

pub use event_lines::{record_lines, write_event, write_lines};
pub use gives::{Came, conclude, ignored_by};
pub use join::MOST_OUTPUT;
pub use loop_fault::LoopFault;
pub use scratch::Scratch;
pub use session::Session;
pub use session_event::{Called, SessionEvent};
pub use when::When;
