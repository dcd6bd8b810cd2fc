//! The keys of a safe connection: the KMAC that its two ends have in common, and the session keys, three DES keys that they
//! derive from it and one random number of each.
//!
//! `Kmac` and `SessionKeys` are types of their own, neither of which can stand for the other: texts are sealed under session
//! keys alone. Who makes the random numbers, and when, is the task of the crates above.
#![tactic(auto)]

mod derivation;
mod kmac;
mod session_keys;

pub use derivation::derive;
pub use kmac::Kmac;
pub use session_keys::SessionKeys;
