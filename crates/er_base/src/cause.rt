//! Why this end releases a connection.

ghost use Rattle.std.specs.Prelude.{◌≡◌};
ghost use Rattle.er_base.specs.Causes.{by_this_end, release_of};

use crate::release::Release;

/// Why this end releases a connection.
#[derive(Clone, Copy, Debug, PartialEq, Eq)]
pub enum Cause {
    /// Its own user releases: 0, with the user's sub-reason.
    User {
        /// The user's sub-reason.
        sub: u8,
    },
    /// More than N2 expiries without an answer to the set-up of the link: 1.1.
    SetUpUnanswered,
    /// More than N2 expiries of T1 without progress: 1.2.
    NoProgress,
    /// A frame that the station may not accept: 1.3.
    FrameError,
    /// The peer's DISC, DM or FRMR: 1.4.
    PeerDisconnected,
    /// The line ended: 1.5.
    LineEnded,
    /// The line failed: 1.6.
    LineFailed,
    /// The line stalled: 1.7.
    LineStalled,
    /// A DR whose user data isn't a DI with the peer's direction flag: 2.1.
    DisconnectWithoutDi,
    /// A TPDU that is faulty or may not come here: 2.2.
    TpduRefused,
    /// A reassembled message of more than 1,032 octets: 2.3.
    MessageTooLong,
    /// A faulty network block: 2.4.
    BlockRefused,
    /// No key at the moment of the AU1: 3.1.
    NoKey,
    /// The MAC of the AU2 is wrong: 3.2.
    Au2MacWrong,
    /// The MAC of the AU3 is wrong: 3.3.
    Au3MacWrong,
    /// The MAC of the AR is wrong: 3.4.
    ArMacWrong,
    /// The responder isn't the one that was called: 3.5.
    OtherResponder,
    /// The safety feature is unknown: 3.6.
    OtherFeature,
    /// The MAC of a DT is wrong: 4.1.
    DtMacWrong,
    /// An SaPDU with this end's own direction flag: 4.2.
    WrongDirection,
    /// An SaPDU that isn't expected in this state: 5.1.
    Unexpected,
    /// Octets that are no SaPDU: 5.2.
    Malformed,
    /// The time for the set-up is spent before the connection stands: 6.1.
    SetUpTimeSpent,
}

fn by_this_end(reason: u8, sub: u8) -> Release
    ensures { result ≡ by_this_end reason sub }
{
    Release {
        reason,
        sub,
        by_peer: false,
    }
}

impl Cause {
    /// The release that this cause makes: its reason and sub-reason, by this end.
    pub fn release(self) -> Release
        ensures { result ≡ release_of self }
    {
        match self {
            Cause::User { sub } => by_this_end(0, sub),
            Cause::SetUpUnanswered => by_this_end(1, 1),
            Cause::NoProgress => by_this_end(1, 2),
            Cause::FrameError => by_this_end(1, 3),
            Cause::PeerDisconnected => by_this_end(1, 4),
            Cause::LineEnded => by_this_end(1, 5),
            Cause::LineFailed => by_this_end(1, 6),
            Cause::LineStalled => by_this_end(1, 7),
            Cause::DisconnectWithoutDi => by_this_end(2, 1),
            Cause::TpduRefused => by_this_end(2, 2),
            Cause::MessageTooLong => by_this_end(2, 3),
            Cause::BlockRefused => by_this_end(2, 4),
            Cause::NoKey => by_this_end(3, 1),
            Cause::Au2MacWrong => by_this_end(3, 2),
            Cause::Au3MacWrong => by_this_end(3, 3),
            Cause::ArMacWrong => by_this_end(3, 4),
            Cause::OtherResponder => by_this_end(3, 5),
            Cause::OtherFeature => by_this_end(3, 6),
            Cause::DtMacWrong => by_this_end(4, 1),
            Cause::WrongDirection => by_this_end(4, 2),
            Cause::Unexpected => by_this_end(5, 1),
            Cause::Malformed => by_this_end(5, 2),
            Cause::SetUpTimeSpent => by_this_end(6, 1),
        }
    }
}
