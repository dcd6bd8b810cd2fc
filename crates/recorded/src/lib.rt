//! A recording that goes first: an outside over another one, which holds back what is written, and writes it before anything goes to a peer.
//!
//! This profile's own. A program that prints what it does before it does it writes many small lines; here they wait, and are written all at once, by
//! the next call that a peer could see. The acts of the program and those inside are tied at each moment: nothing goes inside before all is
//! written that the program had written before it, and nothing behind a write that failed.
#![tactic(auto)]

pub mod laws;
mod recorded;

pub use recorded::{MOST_WAITING, Recorded};
