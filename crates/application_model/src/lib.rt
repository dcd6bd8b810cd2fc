//! Definitions: a loop whose sessions have one application beside as their user: who is told what, which lines of it are events, and when messages are taken.
//!
//! Here is no code but the laws: that an application is told the lines of a connection's journal in turn, that each of its lines is one event or one `gone`,
//! that each connection goes by its own events, and that what a live one accepted is taken and told in order, or waits.
#![tactic(auto)]

pub mod laws;
