//! A credit: four bits.

ghost use Rattle.std.specs.Prelude.{◌≡◌, ◌<◌};

use std::marker::Model;

/// A credit: four bits.
#[derive(Clone, Copy)]
pub struct Credit {
    value: u8,
}

impl Model for Credit {
    ghost use Rattle.std.specs.Prelude.{ℕ, ◌<◌};

    ghost Value = { ℕ };

    ghost view = { λ c. c.value };

    ghost inverse = { λ value. record { value = value } };

    ghost invariant = { λ c. c.value < 16 };
}

impl Credit {
    /// The credit of this value.
    pub fn new(value: u8) -> Credit
        requires { value < 16 }
        ensures { result ≡ value }
    {
        Credit { value }
    }

    /// Its value.
    pub fn get(self) -> u8
        ensures same { result ≡ self }
        ensures small { result < 16 }
    {
        self.value
    }
}
