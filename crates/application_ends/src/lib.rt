//! Laws alone: the ends of this stack are a kind of ends as the laws of a loop with an application want it.
//!
//! They keep each message that they accept until it is taken, in order, and what their outcomes say of a connection is true of them.
#![tactic(auto)]

pub mod laws;
