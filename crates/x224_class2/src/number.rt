//! TPDU numbers of seven bits.

ghost use Rattle.std.specs.Prelude.{◌≡◌, ◌+◌, ◌%◌, ◌<◌};
ghost use Rattle.x224_class2.specs.Kept.{distance};

use crate::credit::Credit;
use std::marker::Model;

/// A number of seven bits: that of a DT, or the first one that isn't granted.
#[derive(Clone, Copy, Default)]
pub struct Number {
    value: u8,
}

impl Model for Number {
    ghost use Rattle.std.specs.Prelude.{ℕ, ◌<◌};

    ghost Value = { ℕ };

    ghost view = { λ n. n.value };

    ghost inverse = { λ value. record { value = value } };

    ghost invariant = { λ n. n.value < 128 };
}

impl Number {
    /// The number with this value.
    pub fn new(value: u8) -> Number
        requires { value < 128 }
        ensures { result ≡ value }
    {
        Number { value }
    }

    /// Its value.
    pub fn get(self) -> u8
        ensures same { result ≡ self }
        ensures small { result < 128 }
    {
        self.value
    }

    /// The one behind it.
    pub fn next(self) -> Number
        ensures { result ≡ (self + 1) % 128 }
    {
        Number {
            value: (self.value + 1) % 128,
        }
    }

    /// The first one that isn't granted, where so many are from this one on.
    pub fn edge(self, credit: Credit) -> Number
        ensures { result ≡ (self + credit) % 128 }
    {
        Number {
            value: (self.value + credit.get()) % 128,
        }
    }

    /// How far another number lies above this one, modulo 128.
    pub fn distance(self, to: Number) -> u8
        ensures value { result ≡ distance self to }
        ensures small { result < 128 }
    {
        (to.value + 128 - self.value) % 128
    }
}
