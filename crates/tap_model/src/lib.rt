//! Definitions: what is heard of a tapped link, what an end's safety side was given over its events, the verdicts of an audit and its text.
//!
//! Here is no code but the names of verdicts, causes and faults, and the law by which a stream is heard frame by frame.
#![tactic(auto)]

mod audit_fault;
mod audit_verdict;
mod end_cause;
pub mod laws;

pub use audit_fault::AuditFault;
pub use audit_verdict::AuditVerdict;
pub use end_cause::EndCause;
