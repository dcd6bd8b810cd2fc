//! The replay of a trace (this profile): its events are given to ends anew, one behind the other, and the lines of what they do are made; and the check
//! of a recording, which is held against that text.
//!
//! What a trace means is defined in `trace_model`; this is the code that prints it. An end is kept only while it is live: of one
//! that is released and at which no message waits, why it was released is all that any later event can show.
#![tactic(auto)]

mod checking;
mod comparing;
mod connections;
mod gives;
pub mod laws;
mod run;
mod text_lines;

pub use checking::check;
pub use run::{Replaying, replay};
pub use text_lines::ended_part;
pub use trace_model::{CheckVerdict, ReplayFault};
