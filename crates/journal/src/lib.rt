//! The journal of a loop as it is written: the lines of each event with what they count, as values.
//!
//! This profile's own. Whoever tells people how a loop goes on gets its counts here, tied by a clause to the lines that are written, and has no printed
//! text to read again. [`Journal`] is an outside to which the lines of an event are written with an [`EventTally`].
#![tactic(auto)]

mod began;
mod event_tally;
mod journal;
mod kept;
pub mod laws;

pub use began::Began;
pub use event_tally::EventTally;
pub use journal::Journal;
