//! `serve` and `call` with an application: their words, their key file, the loop with an application beside, and with what status a run ends.
//!
//! This profile's own. The loop itself is `application_loop`'s; here stands what a command makes of it.
#![tactic(auto)]

mod command;
mod looping;
mod running;

pub use command::{ApplicationCommand, application_from};
pub use running::application_run;
