//! A place for a payload.

ghost use Rattle.std.specs.Prelude.{◌≡◌, ◌≤◌, length, true, false};
ghost use Rattle.hdlc_station.specs.Places.{no_place, cleared};

use crate::content::Content;
use std::marker::Model;

// The greatest number of octets between two flags.
const LONGEST: usize = 1_032;

/// The place of a number: a payload, in room for the longest, whether it is held, and whether it was asked for.
#[derive(Drop)]
pub(crate) struct Place {
    is_held: bool,
    is_asked: bool,
    len: usize,
    octets: [u8; LONGEST],
}

impl Model for Place {
    ghost use Rattle.std.specs.Prelude.{◌≤◌, take};
    ghost use Rattle.hdlc_station.specs.Places as places;

    ghost Value = { places.NumberPlace };

    ghost view = { λ p. record { payload = take p.len p.octets; held = p.is_held; asked = p.is_asked } };

    ghost invariant = { λ p. p.len ≤ 1032 };
}

impl Place {
    /// A place that holds nothing.
    pub(crate) fn new() -> Place
        ensures { result ≡ no_place }
    {
        Place {
            is_held: false,
            is_asked: false,
            len: 0,
            octets: [0; LONGEST],
        }
    }

    /// Holds a payload; only its octets are written.
    pub(crate) fn hold(&mut self, payload: &Content<'_>)
        ensures { self.new ≡ record self.old { payload = payload.now; held = true } }
    {
        let payload = payload.octets();
        self.is_held = true;
        self.len = payload.len();
        self.octets[..payload.len()].copy_from_slice(payload);
    }

    /// The number was asked for.
    pub(crate) fn ask(&mut self)
        ensures { self.new ≡ record self.old { asked = true } }
    {
        self.is_asked = true;
    }

    /// Holds nothing and wasn't asked for; the payload stays to be lent.
    pub(crate) fn clear(&mut self)
        ensures { self.new ≡ cleared self.old }
    {
        self.is_held = false;
        self.is_asked = false;
    }

    /// Whether a payload is held.
    pub(crate) fn is_held(&self) -> bool
        ensures { result ≡ self.now.held }
    {
        self.is_held
    }

    /// Whether the number was asked for.
    pub(crate) fn is_asked(&self) -> bool
        ensures { result ≡ self.now.asked }
    {
        self.is_asked
    }

    /// Lends the payload.
    pub(crate) fn payload(&self) -> &[u8]
        ensures { result.now ≡ self.now.payload }
    {
        &self.octets[..self.len]
    }
}
