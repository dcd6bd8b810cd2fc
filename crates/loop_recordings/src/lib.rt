//! Recordings of the loop: what a loop printed is read as a trace, and the replay of this trace prints the same text (this profile). Each of
//! its lines can be read since all that an end tells of an event is short, where the link has the usual settings: the numbers, the messages
//! and the octets that it gives to the line.
//!
//! The definitions stand in `specs/Recordings.antt` and `specs/Shorts.antt`; `laws` proves them. Nothing here runs.
#![tactic(auto)]

pub mod laws;
