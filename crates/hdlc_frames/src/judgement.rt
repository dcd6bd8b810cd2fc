//! The verdict on the octets of a buffer.

ghost use Rattle.std.specs.Prelude.{◌≡◌, length};
ghost use Rattle.hdlc_frames.specs.Framing.{verdict_on_content};
ghost use Rattle.hdlc_frames.specs.Judgements.{verdict_of, EndsWithin};

use hdlc_fcs::laws::residue_tells_intact;
use hdlc_fcs::{LONGEST, SHORTEST, fcs};

/// The check sequence of a content with its own check sequence behind it, and of no other (ISO/IEC 13239).
const RESIDUE: u16 = 0x0f47;

/// The verdict on a frame that was closed; its body ends before the octet `end` of the buffer.
#[derive(Clone, Copy)]
pub(crate) enum Judgement {
    Frame { end: usize },
    BadFcs,
    TooShort,
    TooLong,
    Aborted,
}

// The verdict on content.
#[inline(never)]
pub(crate) fn judge(content: &[u8]) -> Judgement
    ensures verdict { verdict_of content.now result ≡ verdict_on_content content.now }
    ensures ends { EndsWithin (length content.now) result }
{
    if content.len() > LONGEST {
        return Judgement::TooLong;
    }
    if content.len() < SHORTEST {
        return Judgement::TooShort;
    }
    residue_tells_intact();
    if fcs(content) == RESIDUE {
        Judgement::Frame {
            end: content.len() - 2,
        }
    } else {
        Judgement::BadFcs
    }
}
