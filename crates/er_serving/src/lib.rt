//! `serve` and `call`: the readiness loop over a key file, an address and the outside that a run is handed; and the machine's clock.
//!
//! The loop itself is `readiness_loop`'s; here stands what a command makes of it: which keys it takes, with what status the run ends, and what is
//! printed last. What it prints before is a recording, which replays to itself (`laws`).
#![tactic(auto)]

pub mod laws;
mod line_command;
mod looping;
mod machine_clock;
mod on_line;
mod pair;

pub use line_command::LineCommand;
pub use machine_clock::MachineClock;
pub use on_line::run_on_line;
