//! A deframer of a stream that comes in pieces.

ghost use Rattle.std.specs.Prelude.{◌≡◌, ◌<◌, ◌≤◌, [], length, option_map, IsNone};
ghost use Rattle.std.specs.Borrow.{sem};
ghost use Rattle.hdlc_frames.specs.Deframing.{kept_of, feeding_of, IsKeptOfStream, AddsToFrames, FewerAddNothing};
ghost use Rattle.hdlc_frames.specs.Scanning.{scan_of};
ghost use Rattle.hdlc_frames.specs.Shown.{verdict_of_octets_found};
ghost use Rattle.hdlc_frames.specs.Resting.{LeavesDeframerAs};

use crate::buffer::Buffer;
use crate::found::{Found, Frame};
use crate::judgement::Judgement;
use std::marker::Model;

/// Reads frames out of a stream of octets that comes in pieces. A contract sees what it keeps of the stream
/// since the newest flag.
#[derive(Drop)]
pub struct Deframer {
    buffer: Buffer,
}

impl Model for Deframer {
    ghost use Rattle.hdlc_frames.specs.Deframing.{KeptDeframer};
    ghost use Rattle.hdlc_frames.specs.Buffers.{kept_by};

    ghost Value = { KeptDeframer };

    ghost view = { λ d. kept_by d.buffer };
}

impl Deframer {
    /// A deframer of which no octet was read.
    pub fn new() -> Deframer
        ensures { result ≡ kept_of [] }
    {
        Deframer {
            buffer: Buffer::new(),
        }
    }

    /// Reads a piece up to and with the first flag that closes a frame, and answers how many octets it used
    /// and what it found. Where the piece closes no frame, it uses it whole and answers None.
    pub fn feed<'a>(&'a mut self, piece: &[u8]) -> (usize, Option<Found<'a>>)
        ensures* after { sem 𝓛 (LeavesDeframerAs self.entry (feeding_of self.old piece.now).kept) }
        ensures stands { IsKeptOfStream self.old }
        ensures used { result.0 ≡ (feeding_of self.old piece.now).used }
        ensures found { option_map verdict_of_octets_found result.1 ≡ (feeding_of self.old piece.now).verdict }
        ensures frames { AddsToFrames self.old piece.now result.0 (option_map verdict_of_octets_found result.1) }
        ensures first { FewerAddNothing self.old piece.now result.0 }
        ensures whole { IsNone result.1 → result.0 ≡ length piece.now }
        ensures within { result.0 ≤ length piece.now }
        ensures moves { 0 < length piece.now → 0 < result.0 }
    {
        self.read(piece)
    }

    // Reads on, and lends the frame out of the buffer.
    fn read<'a>(&'a mut self, piece: &[u8]) -> (usize, Option<Found<'a>>)
        ensures* after { sem 𝓛 (LeavesDeframerAs self.entry (scan_of self.old piece.now).kept) }
        ensures stands { IsKeptOfStream self.old }
        ensures used { result.0 ≡ (scan_of self.old piece.now).used }
        ensures found { option_map verdict_of_octets_found result.1 ≡ (scan_of self.old piece.now).verdict }
    {
        let (used, judgement) = self.buffer.scan(piece);
        let buffer: &Buffer = &self.buffer;
        let found = match judgement {
            None => None,
            Some(Judgement::Frame { end }) => {
                let body = &buffer.octets[1..end];
                Some(Found::Frame(Frame {
                    address: buffer.octets[0],
                    body,
                }))
            }
            Some(Judgement::BadFcs) => Some(Found::BadFcs),
            Some(Judgement::TooShort) => Some(Found::TooShort),
            Some(Judgement::TooLong) => Some(Found::TooLong),
            Some(Judgement::Aborted) => Some(Found::Aborted),
        };
        (used, found)
    }
}
