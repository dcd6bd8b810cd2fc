//! The readiness loop as a definition: what one loop does with the sessions of many connections, as a total function of what the
//! outside answered (this profile).
//!
//! The outside answers: what happened on the wires, what a read gave, what a write took, what the clock said, what a user's object
//! said. Each part of the loop takes its answers as plain data, and gives the state behind it, the events of the journal with their
//! outcomes, and the calls made on the wires with their answers. Where fewer answers are given than the part asks for, a plain one stands
//! in their place, so every part is total. Nothing here runs; `laws` says what holds of the loop whatever the outside answers.
#![tactic(auto)]

pub mod laws;
