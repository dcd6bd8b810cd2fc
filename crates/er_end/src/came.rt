//! What came up from the layers below.

use crate::short_sapdu::ShortSapdu;
use er_base::Release;

/// The TPDU that brought a text to the safety side.
#[derive(Clone, Copy, Debug, PartialEq, Eq)]
pub enum Brought {
    InCr,
    InCc,
    InDt,
}

/// What a payload on its way up came to.
#[derive(Drop)]
pub enum Came {
    /// Nothing goes down.
    Nothing,
    /// The safety side answers.
    Answers {
        by: Brought,
        answer: ShortSapdu,
    },
    /// It answers, or has no more to answer, and the safe connection stands with this peer.
    Connects {
        by: Brought,
        answer: ShortSapdu,
        peer: u32,
    },
    /// The safety side was released: by this end, which this DI tells, or by the peer.
    SafetyReleased {
        why: Release,
        di: ShortSapdu,
    },
    /// The peer sent a DR.
    PeerDisconnects {
        why: Release,
    },
    /// A TPDU or a block was refused, which a DR of this reason tells.
    Refused {
        why: Release,
        reason: u8,
    },
}
