//! The world of a drill as definitions: what a step does, what is printed, and what is claimed of every list of steps. No code but the
//! faults of a step and the totals of a run.
#![tactic(auto)]

pub mod laws;
mod totals;
mod world_fault;

pub use totals::Totals;
pub use world_fault::WorldFault;
