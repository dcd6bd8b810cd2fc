//! Which frames of a line are lost.

use rand_core::Rng;
use rand_pcg::Lcg64Xsh32;

/// One direction of a line that loses frames at random, so many of a hundred.
#[derive(Drop)]
pub struct Loss {
    words: Lcg64Xsh32,
    of_hundred: u64,
    seen: u64,
    lost: u64,
}

impl Loss {
    /// The direction of this number of the line of this seed.
    pub fn new(seed: u64, direction: u64, of_hundred: u64) -> Loss {
        Loss {
            words: Lcg64Xsh32::new(seed, direction),
            of_hundred,
            seen: 0,
            lost: 0,
        }
    }

    /// Whether the next frame is lost.
    pub fn loses(&mut self) -> bool {
        self.seen = self.seen.saturating_add(1);
        if self.words.next_u32() as u64 % 100 >= self.of_hundred {
            return false;
        }
        self.lost = self.lost.saturating_add(1);
        true
    }

    /// The frames that were sent.
    pub fn seen(&self) -> u64 {
        self.seen
    }

    /// The frames of these that were lost.
    pub fn lost(&self) -> u64 {
        self.lost
    }
}
