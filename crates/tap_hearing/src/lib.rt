//! Laws alone: what the safety side of an end was given is what is heard of the stream that came to it.
//!
//! Whoever tapped both streams of a link knows so what each side was given, without a look into either end.
#![tactic(auto)]

pub mod laws;
