//! Visits of the sessions of a readiness loop: a tick, a read, a write, a close, with all that follows (this profile).
//!
//! What a session does with an event stands in `loop_session`; here its wires are called. The definitions stand in `loop_model`.
#![tactic(auto)]

mod reading;
mod visit;
mod workspace;
mod writing;

pub use visit::{Visit, begin_call, visit_session};
pub use workspace::Workspace;
