//! Moments.

ghost use Rattle.std.specs.Prelude.{◌≤◌, ◌^◌, ℕ, List, ◌∷◌, [], Option};
ghost use Rattle.link_trait.specs.Outside.{Grew};
ghost use Rattle.link_trait.specs.States.{ClockState};

/// A clock, which answers moments: milliseconds, at most 10^15.
///
/// Its answers are an optional meaning: a clock in memory tells them, a real one doesn't. One that tells nothing
/// never begins to tell, and it may cease to tell. An answer may be below an earlier one.
pub trait Clock {
    // Its answers so far.
    ghost state: { Self → ClockState };

    /// The moment that it is now.
    fn now(&mut self) -> u64
        ensures told { Grew (state self.old).answers (state self.new).answers (result ∷ []) }
        ensures most { result ≤ 10 ^ 15 };
}
