//! The octets since the newest flag, in a buffer of fixed size.

ghost use Rattle.std.specs.Prelude.{◌≡◌, ◌≢◌, ◌≤◌, ◌<◌, ◌+◌, ◌++◌, ℕ, length, take, slice_index, IfSome, option_map, false, true, []};
ghost use Rattle.hdlc_frames.specs.Judgements.{verdict_of, EndsWithin};
ghost use Rattle.hdlc_frames.specs.Scanning.{kept_content, EscapesAt};

use crate::judgement::{Judgement, judge};
use crate::transparency::{
    BLOCK, ESCAPE, ESCAPE_BIT, FLAG, before_flag, before_flag_or_escape, plain_in_block,
};
use hdlc_fcs::LONGEST;

/// The buffer keeps one octet more than a frame may have, so that it shows content that is too long.
const CAPACITY: usize = LONGEST + 1;

/// What is kept of a stream since its newest flag.
#[derive(Drop)]
pub(crate) struct Buffer {
    /// Whether a flag came.
    pub(crate) begun: bool,
    /// Whether the newest octet is an escape that no earlier one escapes.
    pub(crate) escaping: bool,
    /// The number of octets of content that are kept.
    pub(crate) len: usize,
    /// The content, and behind it octets of earlier frames.
    pub(crate) octets: [u8; CAPACITY],
    ghost fits: { len ≤ 1033 },
    ghost fresh: { begun ≡ false → (escaping ≡ false) × (len ≡ 0) },
}

impl Buffer {
    ghost use Rattle.hdlc_frames.specs.Deframing.{after_flag, IsKeptOfStream};
    ghost use Rattle.hdlc_frames.specs.Scanning.{after_inner, closing_verdict, scan_of, Advances};
    ghost use Rattle.hdlc_frames.specs.Buffers.{kept_by};

    pub(crate) fn new() -> Buffer
        ensures { kept_by result ≡ record { begun = false; escaping = false; content = [] } }
    {
        Buffer {
            begun: false,
            escaping: false,
            len: 0,
            octets: [0; CAPACITY],
        }
    }

    // Goes through a piece up to and with the first flag that closes a frame.
    pub(crate) fn scan(&mut self, piece: &[u8]) -> (usize, Option<Judgement>)
        ensures stands { IsKeptOfStream (kept_by self.old) }
        ensures used { result.0 ≡ (scan_of (kept_by self.old) piece.now).used }
        ensures kept { kept_by self.new ≡ (scan_of (kept_by self.old) piece.now).kept }
        ensures verdict { option_map (verdict_of self.new.octets) result.1 ≡ (scan_of (kept_by self.old) piece.now).verdict }
        ensures ends { IfSome result.1 (EndsWithin 1033) }
    {
        let mut at = 0;
        while at < piece.len() {
            if piece[at] == FLAG {
                at += 1;
                if let Some(judgement) = self.close() {
                    return (at, Some(judgement));
                }
            } else {
                at += self.take(&piece[at..]);
            }
        }
        (at, None)
    }

    // A flag came: the verdict on what it closes, if it closes anything.
    #[inline(always)]
    fn close(&mut self) -> Option<Judgement>
        ensures kept { kept_by self.new ≡ after_flag }
        ensures verdict { option_map (verdict_of self.new.octets) result ≡ closing_verdict (kept_by self.old) }
        ensures ends { IfSome result (EndsWithin 1033) }
    {
        let judgement = if self.escaping {
            Some(Judgement::Aborted)
        } else if self.len == 0 {
            None
        } else {
            Some(judge(&self.octets[..self.len]))
        };
        self.begun = true;
        self.escaping = false;
        self.len = 0;
        judgement
    }

    // Takes octets up to the next flag, or some of them, and answers how many.
    #[inline(always)]
    fn take(&mut self, rest: &[u8]) -> usize
        requires some { 0 < length rest.now }
        requires no_flag { slice_index rest.now 0 ≢ 0x7e }
        ensures goes { Advances (kept_by self.old) rest.now result (kept_by self.new) }
        ensures moves { 0 < result }
    {
        if !self.begun {
            return before_flag(rest);
        }
        if self.escaping {
            self.escaping = false;
            self.len = keep(&mut self.octets, self.len, rest[0] ^ ESCAPE_BIT);
            return 1;
        }
        self.take_content(rest)
    }

    // Takes content up to the next flag, or some of it, where no escape is open.
    #[inline(always)]
    fn take_content(&mut self, rest: &[u8]) -> usize
        requires begun { self.old.begun ≡ true }
        requires shut { self.old.escaping ≡ false }
        requires some { 0 < length rest.now }
        requires no_flag { slice_index rest.now 0 ≢ 0x7e }
        ensures goes { Advances (kept_by self.old) rest.now result (kept_by self.new) }
        ensures moves { 0 < result }
    {
        let mut at = 0;
        while at < rest.len() {
            at += self.take_block(&rest[at..]);
            if at == rest.len() {
                return at;
            }
            let octet = rest[at];
            if octet == FLAG {
                return at;
            }
            if octet == ESCAPE {
                let Some(escaped) = escaped_at(rest, at + 1) else {
                    self.escaping = true;
                    return at + 1;
                };
                self.len = keep(&mut self.octets, self.len, escaped ^ ESCAPE_BIT);
                at += 2;
            } else {
                self.len = keep(&mut self.octets, self.len, octet);
                at += 1;
            }
        }
        at
    }

    // Takes the octets before the next flag or escape, and answers how many, where a block of octets is there and the buffer has places
    // for it; else none.
    #[inline(always)]
    fn take_block(&mut self, rest: &[u8]) -> usize
        requires begun { self.old.begun ≡ true }
        requires shut { self.old.escaping ≡ false }
        ensures goes { Advances (kept_by self.old) rest.now result (kept_by self.new) }
        ensures begun { self.new.begun ≡ true }
        ensures shut { self.new.escaping ≡ false }
    {
        if rest.len() < BLOCK {
            return 0;
        }
        if self.len > CAPACITY - BLOCK {
            return 0;
        }
        let count = plain_in_block(rest);
        keep_block(&mut self.octets, self.len, rest);
        self.len += count;
        if count < BLOCK {
            return count;
        }
        BLOCK + self.take_run(&rest[BLOCK..])
    }

    // Takes the octets before the next flag or escape, at once.
    #[inline(never)]
    fn take_run(&mut self, rest: &[u8]) -> usize
        requires begun { self.old.begun ≡ true }
        requires shut { self.old.escaping ≡ false }
        ensures goes { Advances (kept_by self.old) rest.now result (kept_by self.new) }
        ensures begun { self.new.begun ≡ true }
        ensures shut { self.new.escaping ≡ false }
    {
        let count = before_flag_or_escape(rest);
        self.len = keep_all(&mut self.octets, self.len, &rest[..count]);
        count
    }
}

// Keeps one octet of content behind `len` others where the buffer has a place, and answers how many are kept.
#[inline(always)]
fn keep(octets: &mut [u8; CAPACITY], len: usize, octet: u8) -> usize
    requires { len ≤ 1033 }
    ensures content { take result octets.new ≡ kept_content (take len octets.old) octet }
    ensures fits { result ≤ 1033 }
{
    if len < CAPACITY {
        octets[len] = octet;
        return len + 1;
    }
    len
}

// Keeps the octets of a block behind `len` others. Of those behind the content the next ones take the places.
#[inline(always)]
fn keep_block(octets: &mut [u8; CAPACITY], len: usize, block: &[u8])
    requires fits { len + 16 ≤ 1033 }
    requires block { 16 ≤ length block.now }
    ensures { (n : ℕ) → n ≤ 16 → take (len + n) octets.new ≡ take len octets.old ++ take n block.now }
{
    octets[len..len + BLOCK].copy_from_slice(&block[..BLOCK]);
}

// Keeps octets of content behind `len` others as far as the buffer has places, and answers how many are kept.
fn keep_all(octets: &mut [u8; CAPACITY], len: usize, run: &[u8]) -> usize
    requires { len ≤ 1033 }
    ensures content { take result octets.new ≡ take 1033 (take len octets.old ++ run.now) }
    ensures fits { result ≤ 1033 }
{
    let count = run.len().min(CAPACITY - len);
    octets[len..len + count].copy_from_slice(&run[..count]);
    len + count
}

// The octet at a place, which an escape before it escapes; None where a flag stands there, or nothing.
#[inline(always)]
fn escaped_at(octets: &[u8], place: usize) -> Option<u8>
    ensures { EscapesAt octets.now place result }
{
    match octets.get(place) {
        Some(octet) if *octet != FLAG => Some(*octet),
        _ => None,
    }
}
