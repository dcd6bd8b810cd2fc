//! The first frame of octets, found without reading it.

ghost use Rattle.std.specs.Prelude.{◌≡◌, [], MatchOption};
ghost use Rattle.hdlc_frames.specs.Framing.{frames_of};
ghost use Rattle.hdlc_frames.specs.FirstClose.{ClosesFirst};

use crate::transparency::FLAG;
use memchr::memchr;

/// The number of octets up to and with the flag that closes the first frame, whatever is found of that
/// frame; None where no frame is closed.
pub fn first_frame(octets: &[u8]) -> Option<usize>
    ensures { MatchOption result (frames_of octets.now ≡ []) (ClosesFirst octets.now) }
{
    let mut at = memchr(FLAG, octets)? + 1;
    while let Some(count) = memchr(FLAG, &octets[at..]) {
        at += count + 1;
        if count > 0 {
            return Some(at);
        }
    }
    None
}
