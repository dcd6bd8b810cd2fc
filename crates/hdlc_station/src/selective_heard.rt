//! What a rule of a station with selective reject tells and answers.

ghost use Rattle.std.specs.Prelude.{◌≡◌, List};
ghost use Rattle.hdlc_station.specs.Places.{NumberPlace};

use crate::deeds::LinkDeed;
use crate::heard::{Heard, Reply, Told};

/// The frames with which a station answers a frame, before the payloads that may be sent.
#[derive(Clone, Copy, Debug)]
pub(crate) enum SelectiveReply {
    /// Those of a station of either kind.
    Plain(Reply),
    /// The I frame of the payload that is `up` places behind V(A), again.
    Repeated { up: u8 },
    /// SREJ for each number from V(R) on that is less than so far above it, where it didn't come and wasn't asked for.
    AskBelow { up: u8 },
}

/// What a rule did with a frame that came.
#[derive(Clone, Copy, Debug)]
pub(crate) struct SelectiveHeard {
    /// What it told of the frame.
    pub(crate) told: Told,
    /// How many payloads that were held it took.
    pub(crate) more: usize,
    /// What it answers.
    pub(crate) reply: SelectiveReply,
}

/// What a frame that came brought, and what it is answered with.
#[derive(Clone, Copy)]
pub(crate) struct SelectiveBrought<'f> {
    /// What it brought.
    pub(crate) deed: LinkDeed<'f>,
    /// What it is answered with.
    pub(crate) reply: SelectiveReply,
}

impl SelectiveHeard {
    // Nothing was told.
    pub(crate) fn answering(reply: SelectiveReply) -> SelectiveHeard
        ensures { result ≡ record { told = Told.Nothing; more = 0; reply = reply } }
    {
        SelectiveHeard {
            told: Told::Nothing,
            more: 0,
            reply,
        }
    }

    // What a rule of a station of either kind did.
    pub(crate) fn of(heard: Heard) -> SelectiveHeard
        ensures { result ≡ record { told = heard.told; more = 0; reply = SelectiveReply.Plain heard.reply } }
    {
        SelectiveHeard {
            told: heard.told,
            more: 0,
            reply: SelectiveReply::Plain(heard.reply),
        }
    }
}

impl<'f> SelectiveBrought<'f> {
    ghost use Rattle.hdlc_station.specs.Told.{deed_lending};
    ghost use Rattle.hdlc_station.specs.SelectiveReplies.{heard_as};

    // What a rule did with a frame of this information.
    pub(crate) fn of(heard: SelectiveHeard, information: &'f [u8]) -> SelectiveBrought<'f>
        ensures deed { (places : List NumberPlace) → deed_lending places result.deed ≡ heard_as information.now places heard }
        ensures more { result.deed.more ≡ heard.more }
        ensures reply { result.reply ≡ heard.reply }
    {
        SelectiveBrought {
            deed: LinkDeed::of(heard.told, information, heard.more),
            reply: heard.reply,
        }
    }
}
