//! A clock in memory.

ghost use Rattle.std.specs.Prelude.{◌≡◌, ◌<◌, ◌≤◌, ◌^◌, length, All};
ghost use Rattle.link_trait.specs.Outside.{counted};
ghost use Rattle.link_memory.specs.Clocks.{answer_after, told_answers};

use link_trait::Clock;
use std::marker::Model;

/// A clock in memory, which answers the moments of a list, and the last of them again behind its end.
///
/// It tells its answers until it was asked 2^64 - 1 times.
#[derive(Drop)]
pub struct MemoryClock {
    moments: Vec<u64>,
    asked: u64,
}

impl Model for MemoryClock {
    ghost use Rattle.std.specs.Prelude.{◌≤◌, ◌<◌, ◌^◌, All, vec_len};
    ghost use Rattle.link_memory.specs.Clocks.{KeptClock};

    ghost Value = { KeptClock };

    ghost view = { λ c. record { moments = c.moments.items; asked = c.asked } };

    ghost invariant = { λ c. (0 < vec_len c.moments) × All (λ moment. moment ≤ 10 ^ 15) c.moments.items };
}

impl MemoryClock {
    /// A clock of these moments, of which there is at least one, each at most 10^15.
    pub fn new(moments: Vec<u64>) -> MemoryClock
        requires some { 0 < length moments.items }
        requires most { All (λ moment. moment ≤ 10 ^ 15) moments.items }
        ensures moments { result.moments ≡ moments.items }
        ensures asked { result.asked ≡ 0 }
    {
        MemoryClock { moments, asked: 0 }
    }
}

impl Clock for MemoryClock {
    ghost state = { λ c. record { answers = told_answers c } };

    fn now(&mut self) -> u64
        ensures answer { result ≡ answer_after self.old.moments self.old.asked }
        ensures moments { self.new.moments ≡ self.old.moments }
        ensures asked { self.new.asked ≡ counted self.old.asked }
        ensures most { result ≤ 10 ^ 15 }
    {
        let last = self.moments.len() - 1;
        let place = usize::try_from(self.asked).unwrap_or(last).min(last);
        self.asked = self.asked.saturating_add(1);
        self.moments[place]
    }
}
