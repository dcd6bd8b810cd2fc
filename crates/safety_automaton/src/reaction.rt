//! What came of an event: the next phase, and what is to be done.

use crate::control_pdu::ControlPdu;
use crate::deed::SafeDeed;

/// What a side does with octets from its peer: what is told of them, and the SaPDU that is to be sent, where there is one.
#[derive(Clone, Copy)]
pub struct Reaction<'o> {
    /// What is told.
    pub deed: SafeDeed<'o>,
    /// What is to be sent.
    pub sends: Option<ControlPdu>,
}
