//! The content of a frame.

ghost use Rattle.std.specs.Prelude.{◌≡◌, ◌≤◌, length};

use std::marker::Model;

/// What stood between two flags, or a part of it: at most 1,032 octets, so that a place has room for it.
#[derive(Drop)]
pub(crate) struct Content<'f> {
    octets: &'f [u8],
}

impl<'f> Model for Content<'f> {
    ghost use Rattle.std.specs.Prelude.{ℕ, List, ◌≤◌, length};

    ghost Value = { List ℕ };

    ghost view = { λ c. c.octets.now };

    ghost invariant = { λ c. length c.octets.now ≤ 1032 };
}

impl<'f> Content<'f> {
    /// These octets.
    pub(crate) fn new(octets: &'f [u8]) -> Content<'f>
        requires { length octets.now ≤ 1032 }
        ensures { result ≡ octets.now }
    {
        Content { octets }
    }

    /// Its octets.
    pub(crate) fn octets(&self) -> &'f [u8]
        ensures value { result.now ≡ self.now }
        ensures fits { length result.now ≤ 1032 }
    {
        self.octets
    }
}
