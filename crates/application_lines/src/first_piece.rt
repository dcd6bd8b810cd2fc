//! Cuts octets at their first LF.

ghost use Rattle.std.specs.Prelude.{◌≡◌, ◌<◌, ◌≤◌, true, false, [], ◌∷◌, length, take};
ghost use Rattle.std.specs.List.{slice_split};
ghost use Rattle.application_lines.specs.Streams.{is_feed};
ghost use Rattle.application_lines.specs.Taking.{cut_length, pieces_cut};

use memchr::memchr;

const LINE_FEED: u8 = b'\n';

/// The octets before the first LF, or all where there is none; and whether there is one.
pub fn first_piece(octets: &[u8]) -> (&[u8], bool)
    ensures within { length result.0.now ≤ length octets.now }
    ensures more { result.1 ≡ true → length result.0.now < length octets.now }
    ensures all { result.1 ≡ false → result.0.now ≡ octets.now }
    ensures begins { take (length result.0.now) octets.now ≡ result.0.now }
    ensures whole { slice_split is_feed result.0.now ≡ result.0.now ∷ [] }
    ensures pieces { slice_split is_feed (take (cut_length result.0.now result.1) octets.now) ≡ pieces_cut result.0.now result.1 }
{
    match memchr(LINE_FEED, octets) {
        Some(place) => (&octets[..place], true),
        None => (octets, false),
    }
}
