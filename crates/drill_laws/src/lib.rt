//! What is claimed of every list of steps of a drill: laws, no code.
#![tactic(auto)]

pub mod laws;
