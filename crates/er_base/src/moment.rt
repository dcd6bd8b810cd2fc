//! Moments, in milliseconds.

ghost use Rattle.std.specs.Prelude.{◌≡◌, ◌≤◌, ◌<◌, max, min, MatchOption};

use std::marker::Model;

/// The greatest moment: 10^15 milliseconds, some 31,700 years.
pub const MOST_MOMENT: u64 = 1_000_000_000_000_000;

/// A moment in milliseconds, at most [`MOST_MOMENT`].
#[derive(Clone, Copy, Debug)]
pub struct Moment {
    at: u64,
}

impl Model for Moment {
    ghost use Rattle.std.specs.Prelude.{ℕ, ◌≤◌};

    ghost Value = { ℕ };

    ghost view = { λ m. m.at };

    ghost inverse = { λ at. record { at = at } };

    ghost invariant = { λ m. m.at ≤ 1000000000000000 };
}

impl Moment {
    /// The moment of so many milliseconds.
    pub fn new(at: u64) -> Moment
        requires { at ≤ 1000000000000000 }
        ensures { result ≡ at }
    {
        Moment { at }
    }

    /// The moment of so many milliseconds. None exactly where they are more than the greatest.
    pub fn checked(at: u64) -> Option<Moment>
        ensures { MatchOption result (1000000000000000 < at) (λ moment. (moment ≡ at) × (at ≤ 1000000000000000)) }
    {
        if at > MOST_MOMENT {
            return None;
        }
        Some(Moment { at })
    }

    /// The moment of so many milliseconds, the greatest where they are more.
    pub fn capped(at: u64) -> Moment
        ensures { result ≡ min at 1000000000000000 }
    {
        if at > MOST_MOMENT {
            return Moment { at: MOST_MOMENT };
        }
        Moment { at }
    }

    /// Its milliseconds.
    pub fn get(self) -> u64
        ensures same { result ≡ self }
        ensures within { result ≤ 1000000000000000 }
    {
        self.at
    }

    /// The later of two moments.
    pub fn later(self, other: Moment) -> Moment
        ensures { result ≡ max self other }
    {
        if self.at < other.at { other } else { self }
    }
}
