//! The TPDUs that an end gives beside those of its transport.

use crate::short_sapdu::ShortSapdu;

/// A TPDU that the end gives beside those of its transport.
#[derive(Drop)]
pub enum OwnTpdu {
    /// A DR with this reason and user data.
    Dr { reason: u8, user: ShortSapdu },
    /// The DC that answers the peer's DR.
    Dc,
}
