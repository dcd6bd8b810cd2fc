//! Tests of a relay's script and its carrier by their public calls.
//!
//! They stand here, and not in the crates that they test, since a crate with tests is proved twice. The crate has no item but its tests.
#![tactic(auto)]

#[cfg(test)]
mod carriers;
#[cfg(test)]
mod scripts;
