//! An engine and the radio block centre that it calls.

use er_base::EtcsNumber;

/// An engine and the radio block centre that it calls.
#[derive(Clone, Copy)]
pub(crate) struct Pair {
    /// The engine.
    pub(crate) engine: EtcsNumber,
    /// The radio block centre.
    pub(crate) rbc: EtcsNumber,
}
