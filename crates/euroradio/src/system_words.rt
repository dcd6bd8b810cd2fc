//! The random words of `serve` and `call`.

ghost use Rattle.std.specs.Prelude.{◌≡◌, ℕ, List, length, IfOk};

use rand::{Rng, SeedableRng, make_rng};
use std::io;
use std::random::RandomSource;

/// The words of a generator that the system's source of random octets seeded. There is no other way to make it: a command that takes these
/// words has no constant ones, nor those of an earlier start.
///
/// No clause says what octets the source gives: that those of two starts differ is tested.
#[derive(Drop)]
pub(crate) struct SystemWords<G: Rng + SeedableRng + Drop> {
    words: G,
}

impl<G: Rng + SeedableRng + Drop> SystemWords<G> {
    /// The generator is seeded once, now, with as many octets as a seed has.
    pub(crate) fn new<S: RandomSource>(source: &S) -> io::Result<SystemWords<G>>
        ensures { IfOk result (λ made. (seed : List ℕ) × (length seed ≡ G.Seed.len) × (made.words ≡ G.of_seed seed)) }
    {
        Ok(SystemWords {
            words: make_rng(source)?,
        })
    }
}

impl<G: Rng + SeedableRng + Drop> Rng for SystemWords<G> {
    ghost stream = { λ s. G.stream s.words };

    fn next_u32(&mut self) -> u32 {
        self.words.next_u32()
    }

    fn next_u64(&mut self) -> u64 {
        self.words.next_u64()
    }

    fn fill_bytes(&mut self, dst: &mut [u8]) {
        self.words.fill_bytes(dst);
    }
}
