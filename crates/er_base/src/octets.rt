//! A list of octets that contracts see as the list itself.

ghost use Rattle.std.specs.Prelude.{◌≡◌, ℕ, List};

use std::marker::Model;

/// A list of octets that contracts see as the list itself.
#[derive(Debug, Drop)]
pub struct Octets {
    list: Vec<u8>,
}

impl Model for Octets {
    ghost Value = { List ℕ };

    ghost view = { λ o. o.list.items };
}

impl Octets {
    /// Keeps the list.
    pub fn new(list: Vec<u8>) -> Octets
        ensures { result ≡ list.items }
    {
        Octets { list }
    }

    /// Lends the list.
    pub fn as_slice(&self) -> &[u8]
        ensures { result.now ≡ self.now }
    {
        self.list.as_slice()
    }

    /// Gives the list away.
    pub fn into_vec(self) -> Vec<u8>
        ensures { result.items ≡ self }
    {
        self.list
    }
}
