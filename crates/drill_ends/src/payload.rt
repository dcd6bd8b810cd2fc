//! A payload that a user may send.

ghost use Rattle.std.specs.Prelude.{◌≡◌, ◌≤◌, ◌<◌, ◌⊎◌, length, MatchOption};

use std::marker::Model;

/// The most octets of a payload that a user may send.
const MOST_PAYLOAD: usize = 1026;

/// A payload that a user may send: 1 to 1,026 octets.
#[derive(Drop)]
pub struct Payload<'p> {
    octets: &'p [u8],
}

impl<'p> Model for Payload<'p> {
    ghost use Rattle.std.specs.Prelude.{ℕ, ◌≤◌, List, length};

    ghost Value = { List ℕ };

    ghost view = { λ p. p.octets.now };

    ghost invariant = { λ p. (1 ≤ length p.octets.now) × (length p.octets.now ≤ 1026) };
}

impl<'p> Payload<'p> {
    /// The payload of these octets. None exactly where there are none or too many.
    pub fn of(octets: &'p [u8]) -> Option<Payload<'p>>
        ensures { MatchOption result ((length octets.now ≡ 0) ⊎ (1026 < length octets.now)) (λ payload. payload ≡ octets.now) }
    {
        if octets.is_empty() || octets.len() > MOST_PAYLOAD {
            return None;
        }
        Some(Payload { octets })
    }

    /// Lends its octets.
    pub fn octets(&self) -> &'p [u8]
        ensures same { result.now ≡ self.now }
        ensures some { 1 ≤ length self.now }
        ensures few { length self.now ≤ 1026 }
    {
        self.octets
    }
}
