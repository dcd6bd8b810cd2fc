//! Definitions: what a trace means. The ends of its connections, event by event, the printed text of a list of events, why an
//! event isn't taken, and what a check says of a recording.
//!
//! Here is no code but the names of faults and verdicts: what replays a trace and what records one are each held to this.
#![tactic(auto)]

mod check_verdict;
mod replay_fault;

pub use check_verdict::CheckVerdict;
pub use replay_fault::ReplayFault;
