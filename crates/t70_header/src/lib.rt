//! The network layer's block header of ITU-T T.70: each TPDU travels in one block or more, and each
//! block begins with the octets 01 00, or 01 80 where more blocks of the same TPDU follow.
//!
//! [`wrap`] writes a TPDU as one block, and [`Joiner`] joins the blocks of a TPDU. Neither reads what
//! a TPDU holds. The greatest length of a joined TPDU, 1,024 octets, is this profile's.

#![tactic(auto)]

mod fault;
mod joiner;
pub mod laws;
mod wrapping;

pub use fault::BlockFault;
pub use joiner::Joiner;
pub use wrapping::{begin_block, wrap};
