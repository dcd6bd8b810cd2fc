//! How many messages a bulk run sends.

ghost use Rattle.std.specs.Prelude.{◌≡◌, ◌≤◌};

use std::marker::Model;

/// How many messages a bulk run sends, at most 10,000.
#[derive(Clone, Copy)]
pub struct MessageCount {
    count: u32,
}

impl Model for MessageCount {
    ghost use Rattle.std.specs.Prelude.{ℕ, ◌≤◌};

    ghost Value = { ℕ };

    ghost view = { λ c. c.count };

    ghost inverse = { λ count. record { count = count } };

    ghost invariant = { λ c. c.count ≤ 10000 };
}

impl MessageCount {
    /// So many messages.
    pub fn new(count: u32) -> MessageCount
        requires { count ≤ 10000 }
        ensures { result ≡ count }
    {
        MessageCount { count }
    }

    /// The number.
    pub fn get(self) -> u32
        ensures same { result ≡ self }
        ensures within { result ≤ 10000 }
    {
        self.count
    }
}
