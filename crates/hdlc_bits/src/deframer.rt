//! A deframer of a line that comes in pieces.

ghost use Rattle.std.specs.Prelude.{◌≡◌, ◌≤◌, ◌<◌, ◌+◌, ◌-◌, ◌*◌, [], length, take, option_map, IsNone};
ghost use Rattle.std.specs.Borrow.{sem};
ghost use Rattle.hdlc_bits.specs.Keeping.{IsKeptOfLine, kept_of, kept_after, scan_of};
ghost use Rattle.hdlc_bits.specs.Pieces.{bits_between, AddsToFrames, FewerAddNothing};
ghost use Rattle.hdlc_bits.specs.Shown.{verdict_of_bits_found};
ghost use Rattle.hdlc_bits.specs.Resting.{LeavesBitDeframerAs};

use crate::found::BitFound;
use crate::judgement::Judgement;
use crate::segment::Segment;
use std::marker::Model;

/// Reads frames out of a line of bits that comes in pieces, cut at any bit. A contract sees what it keeps of the
/// line since the newest flag.
#[derive(Drop)]
pub struct BitDeframer {
    segment: Segment,
}

impl Model for BitDeframer {
    ghost use Rattle.hdlc_bits.specs.Keeping.{KeptBitDeframer, IsKeptOfLine};
    ghost use Rattle.hdlc_bits.specs.SegmentViews.{kept_in};

    ghost Value = { KeptBitDeframer };

    ghost view = { λ d. kept_in d.segment };

    ghost invariant = { λ d. IsKeptOfLine (kept_in d.segment) };
}

impl BitDeframer {
    /// A deframer of which no bit was read.
    pub fn new() -> BitDeframer
        ensures { result ≡ kept_of [] }
    {
        BitDeframer {
            segment: Segment::new(),
        }
    }

    /// Reads the bits from `first` to before `end` of the octets, each octet with its lowest bit first, up to and with
    /// the first zero that ends a flag or abort and brings a verdict. It answers how many bits it used and what it
    /// found. Where these bits bring no verdict, it uses them all and answers None.
    pub fn feed<'a>(
        &'a mut self,
        octets: &[u8],
        first: u64,
        end: u64,
    ) -> (u64, Option<BitFound<'a>>)
        requires order { first ≤ end }
        requires within { end ≤ 8 * length octets.now }
        ensures* after { sem 𝓛 (LeavesBitDeframerAs self.entry (kept_after self.old (take result.0 (bits_between octets.now first end)))) }
        ensures stands { IsKeptOfLine self.old }
        ensures frames { AddsToFrames self.old (bits_between octets.now first end) result.0 (option_map verdict_of_bits_found result.1) }
        ensures first { FewerAddNothing self.old (bits_between octets.now first end) result.0 }
        ensures whole { IsNone result.1 → result.0 ≡ end - first }
        ensures most { first + result.0 ≤ end }
        ensures moves { first < end → 0 < result.0 }
    {
        self.read(octets, first, end)
    }

    // Reads on, and lends the frame out of the buffer.
    fn read<'a>(&'a mut self, octets: &[u8], first: u64, end: u64) -> (u64, Option<BitFound<'a>>)
        requires order { first ≤ end }
        requires within { end ≤ 8 * length octets.now }
        ensures* after { sem 𝓛 (LeavesBitDeframerAs self.entry (scan_of self.old (bits_between octets.now first end)).kept) }
        ensures stands { IsKeptOfLine self.old }
        ensures used { result.0 ≡ (scan_of self.old (bits_between octets.now first end)).used }
        ensures found { option_map verdict_of_bits_found result.1 ≡ (scan_of self.old (bits_between octets.now first end)).verdict }
    {
        let (used, judgement) = self.segment.scan(octets, first, end);
        let segment: &Segment = &self.segment;
        let found = match judgement {
            None => None,
            Some(Judgement::Frame { end }) => {
                let body = &segment.octets[1..end];
                Some(BitFound::Frame {
                    address: segment.octets[0],
                    body,
                })
            }
            Some(Judgement::Aborted) => Some(BitFound::Aborted),
            Some(Judgement::TooLong) => Some(BitFound::TooLong),
            Some(Judgement::Ragged { bits }) => Some(BitFound::Ragged(bits)),
            Some(Judgement::TooShort) => Some(BitFound::TooShort),
            Some(Judgement::BadFcs) => Some(BitFound::BadFcs),
        };
        (used, found)
    }
}
