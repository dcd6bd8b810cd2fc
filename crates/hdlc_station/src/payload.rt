//! A payload.

ghost use Rattle.std.specs.Prelude.{◌≡◌, ◌≤◌, length};

use std::marker::Model;

/// A payload of an I frame: at most 1,026 octets.
#[derive(Drop)]
pub(crate) struct Payload<'p> {
    octets: &'p [u8],
}

impl<'p> Model for Payload<'p> {
    ghost use Rattle.std.specs.Prelude.{ℕ, List, ◌≤◌, length};

    ghost Value = { List ℕ };

    ghost view = { λ p. p.octets.now };

    ghost invariant = { λ p. length p.octets.now ≤ 1026 };
}

impl<'p> Payload<'p> {
    /// The payload of these octets.
    pub(crate) fn new(octets: &'p [u8]) -> Payload<'p>
        requires { length octets.now ≤ 1026 }
        ensures { result ≡ octets.now }
    {
        Payload { octets }
    }

    /// Its octets.
    pub(crate) fn octets(&self) -> &'p [u8]
        ensures value { result.now ≡ self.now }
        ensures fits { length result.now ≤ 1026 }
    {
        self.octets
    }
}
