//! The SaPDUs of SUBSET-037.

use crate::kind::SaKind;

/// An SaPDU of SUBSET-037 without its direction flag.
#[derive(Clone, Copy, Debug, PartialEq, Eq)]
pub enum SaPdu<'a> {
    /// Begins the set-up: the initiator's first message.
    Au1 {
        /// The initiator's ETCS number, below 2^24.
        id: u32,
        /// The safety feature; only 1 is used.
        feature: u8,
        /// The initiator's random number.
        rb: u64,
    },
    /// The responder's answer to an AU1.
    Au2 {
        /// The responder's ETCS number, below 2^24.
        id: u32,
        /// The safety feature; only 1 is used.
        feature: u8,
        /// The responder's random number.
        ra: u64,
        /// The MAC of the sealed text.
        mac: u64,
    },
    /// The initiator's answer to an AU2.
    Au3 {
        /// The MAC of the sealed text.
        mac: u64,
    },
    /// Ends the set-up: the responder's answer to an AU3.
    Ar {
        /// The MAC of the sealed text.
        mac: u64,
    },
    /// Carries a message of the user.
    Dt {
        /// The user's octets, 1 to 1,023 of them.
        user: &'a [u8],
        /// The MAC of the sealed text.
        mac: u64,
    },
    /// Ends the connection.
    Di {
        /// The reason.
        reason: u8,
        /// The sub-reason.
        sub: u8,
    },
}

impl SaPdu<'_> {
    ghost use Rattle.std.specs.Prelude.{◌≡◌};
    ghost use Rattle.sapdu.specs.Spelling.{kind_of};
    ghost use Rattle.sapdu.specs.Reading.{view};

    /// Its kind.
    pub fn kind(&self) -> SaKind
        ensures { result ≡ kind_of (view self.now) }
    {
        match self {
            SaPdu::Au1 { .. } => SaKind::Au1,
            SaPdu::Au2 { .. } => SaKind::Au2,
            SaPdu::Au3 { .. } => SaKind::Au3,
            SaPdu::Ar { .. } => SaKind::Ar,
            SaPdu::Dt { .. } => SaKind::Dt,
            SaPdu::Di { .. } => SaKind::Di,
        }
    }
}
