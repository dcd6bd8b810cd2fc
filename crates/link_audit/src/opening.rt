//! How a link was opened, as a tap shows it.

use er_base::{EtcsNumber, Moment};

/// How a link was opened.
#[derive(Clone, Copy)]
pub struct Opening {
    /// The engine's ETCS number.
    pub engine: EtcsNumber,
    /// That of the radio block centre.
    pub rbc: EtcsNumber,
    /// The moment at which their key is looked up.
    pub moment: Moment,
}
