//! The safety layer's automaton, after UNISIG SUBSET-037: one side of a safe connection, from the set-up, peer entity
//! authentication, over the exchange of sealed messages to the release. Octet values, the order of checks and the reasons
//! are this profile's.
//!
//! `Safe` is such a side. Each of its calls is a step of the safety model, whose table is in the contracts' definitions; what a
//! step does, row by row, is stated as laws of the model in `laws`: what is accepted, what releases, when a side is connected.
//! Keys come from a `KeyFinder`. Random numbers, timers and the transport are the task of the crates above. Nothing here takes
//! memory.
#![tactic(auto)]

mod control_pdu;
mod deed;
mod kept_text;
mod key_finder;
pub mod laws;
mod pair_key;
mod phase;
mod reaction;
mod role;
mod safe;
mod safe_state;
mod text;

pub use deed::{SafeDeed, SealRefused};
pub use key_finder::KeyFinder;
pub use pair_key::PairKey;
pub use role::Role;
pub use safe::Safe;
pub use safe_state::SafeState;
