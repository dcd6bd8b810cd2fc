//! The audit of tapped links: what each side's safety layer said, and which of it was good.
//!
//! Each stream is gone through once, for its items and its end, with the deframer, the joiner and the readers that the stack has, and what is kept of it
//! doesn't grow with it. What is heard of a stream, the verdicts and the text are defined in `tap_model`; nothing here decides more than they do.
#![tactic(auto)]

mod counted_ear;
mod digits;
mod ear;
mod frame_outcome;
mod items;
mod judging;
mod known;
pub mod laws;
mod marked_lines;
mod opening;
mod openings;
mod printing;
mod read_pdu;
mod run;
mod stream;
mod texts;
mod told;

pub use run::audit;
