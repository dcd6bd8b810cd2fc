//! The message authentication code that seals each message: CBC chaining of ISO/IEC 9797-1 with padding
//! method 1 over DES, the last block under three keys.
//!
//! What text a message is sealed by, and under which keys, is the task of the crates above.
#![tactic(auto)]

mod chaining;
pub mod laws;
mod mac_key;

pub use mac_key::{MacKey, mac};
