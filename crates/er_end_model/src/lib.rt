//! One end of a link as a definition (this profile): a station, network blocks, a transport and a safety side, one above the other, and
//! what each event at the end makes of them.
//!
//! The definitions stand in `specs/`: what an end does with its layers is said once, over any layers (`Stacks`, `Steps`), and
//! `Layers` names those that an assessor reads. `er_end` is the code that does the same over what it keeps. Here stand laws of one event and of runs of events.
#![tactic(auto)]

pub mod laws;
