//! A slot of a queue.

ghost use Rattle.std.specs.Prelude.{◌≡◌, ◌≤◌, [], length};

use std::marker::Model;

// The greatest number of octets of a message.
const LONGEST: usize = 1_032;

/// A message, in room for the longest; the number of its octets stands before them. Contracts see the message.
#[derive(Drop)]
pub(crate) struct Slot {
    len: usize,
    octets: [u8; LONGEST],
}

impl Model for Slot {
    ghost use Rattle.std.specs.Prelude.{ℕ, List, ◌≤◌, take};

    ghost Value = { List ℕ };

    ghost view = { λ s. take s.len s.octets };

    ghost invariant = { λ s. s.len ≤ 1032 };
}

impl Slot {
    /// A slot with no octets.
    pub(crate) fn new() -> Slot
        ensures { result ≡ [] }
    {
        Slot {
            len: 0,
            octets: [0; LONGEST],
        }
    }

    /// Keeps a message in the place of the last one; only its octets are written.
    pub(crate) fn keep(&mut self, message: &[u8])
        requires { length message.now ≤ 1032 }
        ensures { self.new ≡ message.now }
    {
        self.len = message.len();
        self.octets[..message.len()].copy_from_slice(message);
    }

    /// Lends the message.
    pub(crate) fn held(&self) -> &[u8]
        ensures value { result.now ≡ self.now }
        ensures fits { length result.now ≤ 1032 }
    {
        &self.octets[..self.len]
    }
}
