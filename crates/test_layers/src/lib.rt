//! Tests of the layers by their public calls: vectors of other implementations, worked rows, calls that may want memory with their answers.
//!
//! They stand here, and not in the crates that they test, since a crate with tests is proved twice. The crate has no item but its tests.
#![tactic(auto)]

#[cfg(test)]
mod base;
#[cfg(test)]
mod bit_frames;
#[cfg(test)]
mod block;
#[cfg(test)]
mod bulk_steps;
#[cfg(test)]
mod check_sequences;
#[cfg(test)]
mod ends;
#[cfg(test)]
mod frames;
#[cfg(test)]
mod key_files;
#[cfg(test)]
mod keys;
#[cfg(test)]
mod macs;
#[cfg(test)]
mod network_blocks;
#[cfg(test)]
mod queues;
#[cfg(test)]
mod safety;
#[cfg(test)]
mod sapdus;
#[cfg(test)]
mod scenarios;
#[cfg(test)]
mod settings;
#[cfg(test)]
mod stations;
#[cfg(test)]
mod tpdus;
#[cfg(test)]
mod traces;
#[cfg(test)]
mod users;
