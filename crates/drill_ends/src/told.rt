//! What an end did.

use crate::refusal::Refusal;
use des_block::TripleKey;
use er_base::{Octets, Release};

/// What an end did: one thing that is marked, printed or queued.
#[derive(Drop)]
pub enum Told {
    /// A text was sealed for sending.
    Sealed {
        /// The session keys.
        key: TripleKey,
        /// The text.
        text: Octets,
    },
    /// A text of the set-up was verified, and the end isn't connected yet.
    Verified {
        /// The session keys.
        key: TripleKey,
        /// The text.
        text: Octets,
    },
    /// A text of the set-up was verified, and by it the end is connected.
    Connected {
        /// The peer's ETCS number.
        peer: u32,
        /// The session keys.
        key: TripleKey,
        /// The text.
        text: Octets,
    },
    /// A message was accepted.
    Accepted {
        /// Its user octets.
        user: Octets,
        /// The session keys.
        key: TripleKey,
        /// The text that was verified.
        text: Octets,
    },
    /// The link came up.
    Up,
    /// A payload was accepted.
    Arrived(Octets),
    /// The user took a message; none was there.
    Took(Octets),
    NothingToTake,
    /// A send was refused.
    Refused(Refusal),
    /// The connection ended.
    Released(Release),
    /// A frame for the peer.
    Frame(Octets),
}
