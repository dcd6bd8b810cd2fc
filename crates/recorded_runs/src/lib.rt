//! Laws alone: a run of `serve` or `call` by way of an outside whose recording goes first, as a peer and the sink inside see it.
//!
//! What a run does to its outside, and what such an outside does inside for what is done to it, are joined: at each moment of what is done inside, the
//! sink there holds the lines that tell of what went.
#![tactic(auto)]

pub mod laws;
