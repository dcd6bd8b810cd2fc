//! Tests of the wires over sockets, on this machine: peers that come and go, and one table of scripts that wires in memory answer too.
//!
//! They stand here, and not in mio_wires, since a crate with tests is proved twice. The crate has no item but its tests.
#![tactic(auto)]

#[cfg(test)]
mod application;
#[cfg(test)]
mod options;
#[cfg(test)]
mod peers;
#[cfg(test)]
mod scripts;
