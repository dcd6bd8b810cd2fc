//! Laws alone: how what an end was given ties its keys and its messages to what is heard of a tapped link.
#![tactic(auto)]

pub mod laws;
