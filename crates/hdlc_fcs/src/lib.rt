//! The frame check sequence of 16 bits of ISO/IEC 13239, and the contents of frames, which end in it.
//!
//! `fcs` gives the sequence of a slice, `Running` that of octets which come in pieces, both through tables,
//! eight octets at a time; `plain` keeps the programs that go octet by octet and bit by bit. Each is proved
//! equal to the complement of the remainder of a division of polynomials. `is_intact` and `check_octets` read
//! and write the check sequence of a frame's content. The crate doesn't know how frames are told apart on a
//! line: that is for the crates above.
#![tactic(auto)]

mod contents;
pub mod laws;
pub mod plain;
mod running;
mod sequence;
mod table;

pub use contents::{LONGEST, SHORTEST, check_octets, check_octets_of_fields, is_intact};
pub use running::Running;
pub use sequence::fcs;
