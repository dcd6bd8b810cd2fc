//! What an application is told of an event at the end of a connection: the lines that the model of the loop says.
#![tactic(auto)]

pub mod laws;
mod telling;

pub use telling::tell_effects;
