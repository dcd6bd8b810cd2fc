//! Definitions: the units of what a side of a relayed connection sends, their kinds, what a script gives for them, and what is carried to the other side.
//!
//! Here is no code but the laws: that the cut into units goes by frames and not by reads, that without a line all is carried as it came, and that lines
//! which only lose, repeat and delay make a line that only loses and repeats.
#![tactic(auto)]

pub mod laws;
