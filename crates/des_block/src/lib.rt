//! The Data Encryption Standard on one block, FIPS 46-3: what the seal of every message rests on.
//!
//! Octet 1 of a block or key is the most significant octet of its `u64`. Bits 8, 16, .. 64 of a key are
//! neither used nor checked. The crate has no mode of operation: which blocks are chained, and how a text is
//! cut into them, is the task of the crates above.
#![tactic(auto)]

mod block;
mod c_choices;
mod chaining_value;
mod d_choices;
mod key_schedule;
pub mod laws;
mod permutations;
pub mod plain;
mod round_keys;
mod rounds;
mod spread_boxes;
mod tables;
mod triple_key;
mod triple_schedule;

pub use block::{decipher, encipher};
pub use chaining_value::ChainingValue;
pub use key_schedule::KeySchedule;
pub use triple_key::TripleKey;
pub use triple_schedule::TripleSchedule;
