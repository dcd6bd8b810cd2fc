//! The octets that stand for something else than themselves on a line, and the runs between them.

ghost use Rattle.std.specs.Prelude.{◌≡◌, ◌≢◌, ◌==◌, ◌<◌, ◌≤◌, ◌⊎◌, length, slice_index, if◌then◌else◌};
ghost use Rattle.std.specs.Int.{w64, trailing_zeros};
ghost use Rattle.hdlc_frames.specs.Scanning.{NoFlagBefore, PlainBefore};

use memchr::{memchr, memchr2};
use std::simd::prelude::*;

/// The octet that bounds frames (ISO/IEC 13239).
pub(crate) const FLAG: u8 = 0x7e;

/// The octet that says that the next one is escaped.
pub(crate) const ESCAPE: u8 = 0x7d;

/// What an escaped octet is combined with.
pub(crate) const ESCAPE_BIT: u8 = 0x20;

/// So many octets are a block, which is looked at at once.
pub(crate) const BLOCK: usize = 16;

// How many octets stand before the first flag.
pub(crate) fn before_flag(octets: &[u8]) -> usize
    ensures within { result ≤ length octets.now }
    ensures none { NoFlagBefore octets.now result }
    ensures moves { 0 < length octets.now → slice_index octets.now 0 ≢ 0x7e → 0 < result }
{
    match memchr(FLAG, octets) {
        Some(count) => count,
        None => octets.len(),
    }
}

// How many octets stand before the first flag or escape.
pub(crate) fn before_flag_or_escape(octets: &[u8]) -> usize
    ensures within { result ≤ length octets.now }
    ensures none { PlainBefore octets.now result }
    ensures stops { result < length octets.now → (slice_index octets.now result ≡ 0x7e) ⊎ (slice_index octets.now result ≡ 0x7d) }
{
    match memchr2(FLAG, ESCAPE, octets) {
        Some(count) => count,
        None => octets.len(),
    }
}

// How many of the octets of a block stand before its first flag or escape.
#[inline(always)]
pub(crate) fn plain_in_block(octets: &[u8]) -> usize
    requires { 16 ≤ length octets.now }
    ensures within { result ≤ 16 }
    ensures none { PlainBefore octets.now result }
{
    let block = u8x16::from_slice(octets);
    let stops = block.simd_eq(u8x16::splat(FLAG)) | block.simd_eq(u8x16::splat(ESCAPE));
    first_of(stops.to_bitmask())
}

// The place of the lowest bit of a block's mask that is set.
#[inline(always)]
fn first_of(mask: u64) -> usize
    ensures { result ≡ if mask == 0 then 16 else trailing_zeros w64 mask }
{
    if mask == 0 {
        BLOCK
    } else {
        mask.trailing_zeros() as usize
    }
}
