//! Definitions: what a loop with an application beside did, by all the acts of its outside, and the history of the model that they are.
//!
//! Here is no code but the laws: that at each moment all is so that the model of the loop claims, and what an application was given and asked for by then.
#![tactic(auto)]

pub mod laws;
