//! The lines of a trace that tell what an event at an end came to (this profile): what replays a trace and what records one print them
//! alike.
#![tactic(auto)]

mod lines;

pub use lines::{tell_effects, tell_empty, tell_refused};
