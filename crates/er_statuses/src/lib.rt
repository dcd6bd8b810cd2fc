//! How a run of the program ends: its status and its last line, for the commands above; and the files and keys for the want of which it ends.
//!
//! A status is 0 where all was done, and else the number of the cause, of which the last line tells. A write that fails ends a run in place of
//! any line.
#![tactic(auto)]

pub mod acting;
mod last_lines;
mod status;
mod stop;

pub use last_lines::{fault_line, overfull_line};
pub use status::Status;
pub use stop::Stop;
