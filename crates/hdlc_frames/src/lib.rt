//! Frames of ISO/IEC 13239 under start/stop transmission with octet transparency, and their controls in
//! balanced mode with numbers modulo 8 and 128.
//!
//! `Deframer` reads frames out of a stream that comes in pieces, `put_frame` and `put_fields` write one, `first_frame` finds
//! where the first one ends, `control` and `control_extended` read the control of a body, and `Control`
//! gives its octets. What a stream is read as is defined on the whole stream (`specs/Framing.antt`); `laws`
//! has what follows for every cut of it. The greatest length of a frame and the order of the verdicts are
//! this profile's. The crate doesn't know stations: whether a frame is expected, and what answers it, is
//! decided above. No call takes memory.
#![tactic(auto)]

mod buffer;
mod control_octet;
mod controls;
mod deframer;
mod found;
mod judgement;
pub mod laws;
mod scanning;
mod transparency;
mod writing;

pub use control_octet::{control, control_extended};
pub use controls::Control;
pub use deframer::Deframer;
pub use found::{Found, Frame};
pub use scanning::first_frame;
pub use writing::{put_fields, put_frame};
