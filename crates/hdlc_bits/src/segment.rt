//! The bits since the newest flag, in a buffer of fixed size.

ghost use Rattle.std.specs.Prelude.{◌≡◌, ◌≤◌, ◌<◌, ◌*◌, ◌+◌, ◌-◌, ◌%◌, ◌^◌, ◌++◌, length, take, drop, IfSome, option_map, false, []};
ghost use Rattle.bit_lists.specs.LowestFirst.{low_bits};
ghost use Rattle.hdlc_bits.specs.Judgements.{verdict_of, EndsWithin};
ghost use Rattle.hdlc_bits.specs.Framing.{is_flag, has_zero, verdict_at_end};
ghost use Rattle.hdlc_bits.specs.Keeping.{kept_of_nothing, added};
ghost use Rattle.hdlc_bits.specs.Buffers.{buffer_bits, HasOnes};

use crate::judgement::{Judgement, MOST_BITS, judge};
use hdlc_fcs::LONGEST;

/// The octets of the longest content, and one for the bits that show it is too long.
const CAPACITY: usize = LONGEST + 1;

/// The number of ones of a flag.
const FLAG_ONES: u32 = 6;

/// So many ones behind a zero are kept: these and any more are an abort.
const MOST_ONES: u64 = 7;

/// What is kept of a line since its newest flag or abort.
#[derive(Drop)]
pub(crate) struct Segment {
    /// The number of ones behind the newest zero, at most 7.
    pub(crate) ones: u32,
    /// Whether the newest flag or abort is a flag.
    pub(crate) begun: bool,
    /// Whether a zero goes before the ones that follow.
    pub(crate) gap: bool,
    /// The number of bits behind that flag that are kept.
    pub(crate) len: usize,
    /// The bits behind the last whole octet, the first one lowest.
    pub(crate) last: u32,
    /// The whole octets, and behind them octets of earlier segments.
    pub(crate) octets: [u8; CAPACITY],
    ghost few: { ones ≤ 7 },
    ghost fits: { len ≤ 8262 },
    ghost narrow: { last < 2 ^ (len % 8) },
}

impl Segment {
    ghost use Rattle.hdlc_bits.specs.Keeping.{after_zero, after_ones, closing_verdict, scan_of};
    ghost use Rattle.hdlc_bits.specs.Pieces.{bits_between};
    ghost use Rattle.hdlc_bits.specs.SegmentViews.{kept_in};

    pub(crate) fn new() -> Segment
        ensures { kept_in result ≡ kept_of_nothing }
    {
        Segment {
            ones: 0,
            begun: false,
            gap: false,
            len: 0,
            last: 0,
            octets: [0; CAPACITY],
        }
    }

    // Goes through the bits from `first` to before `end` of the octets, up to and with the first zero that brings a
    // verdict.
    pub(crate) fn scan(&mut self, octets: &[u8], first: u64, end: u64) -> (u64, Option<Judgement>)
        requires order { first ≤ end }
        requires within { end ≤ 8 * length octets.now }
        ensures used { result.0 ≡ (scan_of (kept_in self.old) (bits_between octets.now first end)).used }
        ensures kept { kept_in self.new ≡ (scan_of (kept_in self.old) (bits_between octets.now first end)).kept }
        ensures verdict { option_map (verdict_of self.new.octets) result.1
            ≡ (scan_of (kept_in self.old) (bits_between octets.now first end)).verdict }
        ensures ends { IfSome result.1 (EndsWithin 1033) }
    {
        let mut at = first;
        while at < end {
            let left = (8 - at % 8).min(end - at);
            let ones = ones_from(octets[(at / 8) as usize], at % 8).min(left);
            self.add_ones(ones);
            at += ones;
            if ones < left {
                at += 1;
                if let Some(judgement) = self.end_ones() {
                    return (at - first, Some(judgement));
                }
            }
        }
        (at - first, None)
    }

    // So many ones came.
    #[inline(always)]
    fn add_ones(&mut self, ones: u64)
        requires { ones ≤ 8 }
        ensures kept { kept_in self.new ≡ after_ones (kept_in self.old) ones }
    {
        self.ones = (self.ones as u64 + ones).min(MOST_ONES) as u32;
    }

    // A zero came behind the ones: the verdict on what it closes, if it closes anything.
    #[inline(always)]
    fn end_ones(&mut self) -> Option<Judgement>
        ensures kept { kept_in self.new ≡ after_zero (kept_in self.old) }
        ensures verdict { option_map (verdict_of self.new.octets) result ≡ closing_verdict (kept_in self.old) }
        ensures ends { IfSome result (EndsWithin 1033) }
    {
        let ones = self.ones;
        self.ones = 0;
        if ones >= FLAG_ONES {
            return self.close(ones);
        }
        if self.begun {
            self.add_element(ones);
        }
        None
    }

    // A flag or an abort came: the verdict on what it closes, if it closes anything.
    #[inline(never)]
    fn close(&mut self, ones: u32) -> Option<Judgement>
        requires bound { 6 ≤ ones }
        ensures kept { kept_in self.new ≡ record { ones = self.old.ones; begun = is_flag ones; gap = false; content = [] } }
        ensures verdict { option_map (verdict_of self.new.octets) result ≡ verdict_at_end ones (kept_in self.old).content }
        ensures ends { IfSome result (EndsWithin 1033) }
    {
        let judgement = self.judged(ones);
        self.begun = ones == FLAG_ONES;
        self.gap = false;
        self.len = 0;
        self.last = 0;
        judgement
    }

    // The verdict on the bits that so many ones end, if there are any.
    #[inline(always)]
    fn judged(&self, ones: u32) -> Option<Judgement>
        ensures verdict { option_map (verdict_of self.now.octets) result ≡ verdict_at_end ones (kept_in self.now).content }
        ensures ends { IfSome result (EndsWithin 1033) }
    {
        if self.len == 0 {
            return None;
        }
        if ones > FLAG_ONES {
            return Some(Judgement::Aborted);
        }
        Some(judge(&self.octets, self.len, self.last))
    }

    // An element of so many ones and a zero came: the zero before them, if one is due, and the ones are bits of the
    // content, as far as the buffer has places.
    #[inline(always)]
    fn add_element(&mut self, ones: u32)
        requires { ones ≤ 5 }
        ensures { kept_in self.new ≡ record (kept_in self.old) {
          gap = has_zero ones;
          content = take 8257 ((kept_in self.old).content ++ added self.old.gap ones);
        } }
    {
        let gap = self.gap;
        self.gap = ones != 5;
        if self.len <= MOST_BITS {
            let (bits, count) = element(gap, ones);
            self.push(bits, count);
        }
    }

    // Appends so many bits.
    #[inline(always)]
    fn push(&mut self, bits: u32, count: usize)
        requires room { self.old.len ≤ 8256 }
        requires few { count ≤ 6 }
        requires narrow { bits < 2 ^ count }
        ensures { kept_in self.new ≡ record (kept_in self.old) {
          content = take 8257 (buffer_bits self.old.len self.old.last self.old.octets ++ low_bits count bits);
        } }
    {
        let place = self.len % 8;
        let joined = bits << place as u32 | self.last;
        self.octets[self.len / 8] = (joined % 256) as u8;
        self.last = joined >> ((place + count) / 8 * 8) as u32;
        self.len += count;
    }
}

// So many ones behind a zero or none, as a number with the first bit lowest, and the number of bits.
#[inline(always)]
fn element(gap: bool, ones: u32) -> (u32, usize)
    requires { ones ≤ 5 }
    ensures bits { low_bits result.1 result.0 ≡ added gap ones }
    ensures narrow { result.0 < 2 ^ result.1 }
    ensures few { result.1 ≤ 6 }
{
    let gap = gap as u32;
    (((1 << ones) - 1) << gap, (ones + gap) as usize)
}

// How many ones an octet has from a place on, before a zero or its end.
#[inline(always)]
fn ones_from(octet: u8, place: u64) -> u64
    requires { place < 8 }
    ensures { HasOnes (drop place (low_bits 8 octet)) result }
{
    (octet >> place as u32).trailing_ones() as u64
}
