//! Two stations in asynchronous balanced mode (ISO/IEC 13239) over two lines that lose, repeat and alter frames: what
//! each end takes, why it is released, and how many deliveries a line without a loss makes.
//!
//! The link and its steps stand in `pair_model/specs`, what a station does in `specs/Links.antt`, the statements in
//! `specs/Laws.antt`; `laws` proves them. Nothing here runs.
#![tactic(auto)]

pub mod laws;
