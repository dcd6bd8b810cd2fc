//! The verdict on the bits of a buffer.

ghost use Rattle.std.specs.Prelude.{◌≡◌, ◌≤◌, ◌*◌, ◌/◌, ◌%◌, length};
ghost use Rattle.hdlc_bits.specs.Framing.{verdict_on_bits};
ghost use Rattle.hdlc_bits.specs.Buffers.{buffer_bits};
ghost use Rattle.hdlc_bits.specs.Judgements.{verdict_of, EndsWithin};

use hdlc_fcs::{LONGEST, SHORTEST, is_intact};

/// The greatest number of bits that a content may have (this profile).
pub(crate) const MOST_BITS: usize = 8 * LONGEST;

/// The least number of bits that a content may have (this profile).
const LEAST_BITS: usize = 8 * SHORTEST;

/// The verdict on bits that were closed; the body of a frame ends before the octet `end` of the buffer.
#[derive(Clone, Copy)]
pub(crate) enum Judgement {
    Frame { end: usize },
    Aborted,
    TooLong,
    Ragged { bits: usize },
    TooShort,
    BadFcs,
}

// The verdict on `len` bits that a flag closes, of which the buffer has the whole octets and `last` the others.
#[inline(never)]
pub(crate) fn judge(octets: &[u8], len: usize, last: u32) -> Judgement
    requires fits { len / 8 ≤ length octets.now }
    ensures verdict { verdict_of octets.now result ≡ verdict_on_bits (buffer_bits len last octets.now) }
    ensures ends { EndsWithin (length octets.now) result }
{
    let _ = last;
    if len > MOST_BITS {
        return Judgement::TooLong;
    }
    if len % 8 > 0 {
        return Judgement::Ragged { bits: len };
    }
    if len < LEAST_BITS {
        return Judgement::TooShort;
    }
    if is_intact(&octets[..len / 8]) {
        Judgement::Frame { end: len / 8 - 2 }
    } else {
        Judgement::BadFcs
    }
}
