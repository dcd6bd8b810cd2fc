//! What a side did with octets from its peer.

use er_base::Release;

/// What a side of a safe connection did with octets from its peer.
#[derive(Clone, Copy, Debug, PartialEq, Eq)]
pub enum SafeDeed<'o> {
    /// An SaPDU of the set-up was answered.
    Answered,
    /// The connection is made, with the peer of this ETCS number.
    Connected {
        /// The peer's ETCS number, below 2^24.
        peer: u32,
    },
    /// A message of the peer's user: its octets, lent from what was received.
    Accepted(&'o [u8]),
    /// The connection ended, by this side or by the peer's DI.
    Released(Release),
    /// The connection had ended before.
    Ignored,
}

/// Why a message isn't sent: the first of these, in this order, that holds.
#[derive(Clone, Copy, Debug, PartialEq, Eq)]
pub enum SealRefused {
    /// The connection has ended, for this reason.
    Released(Release),
    /// The connection isn't made yet.
    NotConnected,
    /// The user octets are this many, and not 1 to 1,023.
    Length(usize),
}
