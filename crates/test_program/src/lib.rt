//! Tests of the ends of a drill, of the world, of replays and of the program's top call, by their public calls, over the outside in memory.
//!
//! They stand here, and not in the crates that they test, since a crate with tests is proved twice. The crate has no item but its tests.
#![tactic(auto)]

#[cfg(test)]
mod outside_objects;
#[cfg(test)]
mod program_audits;
#[cfg(test)]
mod program_bits;
#[cfg(test)]
mod program_calls;
#[cfg(test)]
mod program_off_line;
#[cfg(test)]
mod program_replays;
#[cfg(test)]
mod program_top;
#[cfg(test)]
mod replays;
#[cfg(test)]
mod station_ends;
#[cfg(test)]
mod worlds;
