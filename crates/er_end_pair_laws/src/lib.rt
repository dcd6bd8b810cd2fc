//! Two ends of the whole stack (a station, network blocks, a transport and a safety side, one above the other) over two lines that
//! lose, repeat and alter frames: what each end accepts, why it is released, and that T1 repairs what was lost; and over lines that lose nothing:
//! that all arrives, by how many deliveries, how many frames wait, and how far both safety sides are.
//!
//! The link and its steps stand in `pair_model/specs`, what an end does on it in `specs/Links.antt`, the statements in `specs/Laws.antt` and
//! `specs/Recovery.antt`; `laws` proves them. Nothing here runs.
#![tactic(auto)]

pub mod laws;
