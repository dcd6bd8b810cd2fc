//! Two ends of one kind over two lines that pass, lose, repeat and alter frames: what a step of such a link does, whatever the ends are.
//!
//! The definitions stand in `specs/Links.antt` and `specs/Steps.antt`, lemmas on lists of steps in `specs/Walks.antt`. Stations
//! (`hdlc_pair_laws`) and ends of the whole stack (`er_end_pair_laws`) are kinds of ends; the laws of each stand in its crate. Nothing here runs.
#![tactic(auto)]
