//! The sizes that a TPDU may have.

ghost use Rattle.std.specs.Prelude.{◌≡◌, ◌≤◌, min};
ghost use Rattle.x224_tpdu.specs.Spellings.{IsSize};

use std::marker::Model;

/// A size of a TPDU: a power of two from 128 to 8,192.
#[derive(Clone, Copy)]
pub struct Size {
    octets: u16,
}

impl Model for Size {
    ghost use Rattle.std.specs.Prelude.{ℕ};
    ghost use Rattle.x224_tpdu.specs.Spellings.{IsSize};

    ghost Value = { ℕ };

    ghost view = { λ s. s.octets };

    ghost inverse = { λ octets. record { octets = octets } };

    ghost invariant = { λ s. IsSize s.octets };
}

impl Size {
    /// The size of so many octets.
    pub fn new(octets: u16) -> Size
        requires { IsSize octets }
        ensures { result ≡ octets }
    {
        Size { octets }
    }

    /// Its octets.
    pub fn get(self) -> u16
        ensures same { result ≡ self }
        ensures known { IsSize result }
    {
        self.octets
    }

    /// The least of a proposed size, 1,024 and the own one.
    pub fn agreed(self, own: Size) -> Size
        ensures value { result ≡ min (min self 1024) own }
        ensures most { result ≤ 1024 }
    {
        Size {
            octets: self.octets.min(1_024).min(own.octets),
        }
    }
}
