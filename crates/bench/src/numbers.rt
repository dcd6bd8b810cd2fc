//! The numbers behind the first word.

// No measure has more of them.
const MOST: usize = 6;

/// Up to six numbers; one that was left out, or is no number, is none.
#[derive(Drop)]
pub struct Numbers {
    given: [Option<u64>; MOST],
    count: usize,
}

impl Numbers {
    /// No number.
    pub fn none() -> Numbers {
        Numbers {
            given: [None; MOST],
            count: 0,
        }
    }

    /// One number more; those behind the sixth are left out.
    pub fn add(&mut self, number: Option<u64>) {
        if let Some(place) = self.given.get_mut(self.count) {
            *place = number;
            self.count = self.count.saturating_add(1);
        }
    }

    /// The numbers in their order, each by its default where it is none.
    pub fn or<const N: usize>(&self, defaults: [u64; N]) -> [u64; N] {
        let mut numbers = defaults;
        for (number, given) in numbers.iter_mut().zip(self.given.iter()) {
            if let Some(given) = given {
                *number = *given;
            }
        }
        numbers
    }
}
