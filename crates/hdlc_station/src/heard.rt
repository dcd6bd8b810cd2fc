//! What a rule tells and answers.

ghost use Rattle.std.specs.Prelude.{◌≡◌, None};

use er_base::Release;

/// What a rule told of a frame that came.
#[derive(Clone, Copy, Debug, PartialEq, Eq)]
pub(crate) enum Told {
    /// Nothing.
    Nothing,
    /// The link came up.
    CameUp,
    /// The payload of the frame was taken.
    Took,
    /// The station was released.
    Released {
        /// Why.
        release: Release,
    },
}

/// The frames with which a station answers an event, before the payloads that may be sent. No rule writes them itself: `StationCore::write` does.
#[derive(Clone, Copy, Debug, PartialEq, Eq)]
pub(crate) enum Reply {
    /// None.
    Nothing,
    /// RR with V(R).
    Ready,
    /// REJ with V(R).
    Reject,
    /// SREJ with the number that is so far above V(R).
    SelectiveReject {
        /// How far.
        up: u8,
    },
    /// The set-up frame.
    SetUp,
    /// DISC.
    Disconnect,
    /// DM.
    Disconnected,
    /// UA.
    Agreed {
        /// Its F bit.
        bit: bool,
    },
    /// Every frame from V(A) to V(S) - 1 again.
    Again,
}

/// What a rule did with a frame that came: what it told, and what it answers.
#[derive(Clone, Copy, Debug)]
pub(crate) struct Heard {
    /// What it told.
    pub(crate) told: Told,
    /// What it answers.
    pub(crate) reply: Reply,
}

/// What the expiry of T1 did.
#[derive(Clone, Copy, Debug)]
pub(crate) struct Expired {
    /// Why the station was released, where it was.
    pub(crate) release: Option<Release>,
    /// What it answers.
    pub(crate) reply: Reply,
}

impl Heard {
    /// Nothing was told, and nothing is answered.
    pub(crate) fn nothing() -> Heard
        ensures { result ≡ record { told = Told.Nothing; reply = Reply.Nothing } }
    {
        Heard {
            told: Told::Nothing,
            reply: Reply::Nothing,
        }
    }
}

impl Expired {
    // Nothing was told, and nothing is answered.
    pub(crate) fn nothing() -> Expired
        ensures { result ≡ record { release = None; reply = Reply.Nothing } }
    {
        Expired {
            release: None,
            reply: Reply::Nothing,
        }
    }
}
