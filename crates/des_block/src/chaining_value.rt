//! A block that is enciphered over and over.

ghost use Rattle.std.specs.Prelude.{◌≡◌, ℕ, List, replicate};
ghost use Rattle.bit_lists.specs.Bits.{bits, pick, xor};
ghost use Rattle.des_block.specs.Des.{cipher};
ghost use Rattle.des_block.specs.Tables.{inverse_initial_permutation as inverse_table};

use crate::key_schedule::KeySchedule;
use crate::permutations::{initial_permutation, inverse_initial_permutation};
use std::marker::Model;

/// The value that block chaining hands on from each block to the next. It starts as 64 zeros.
///
/// It is kept behind IP, since IP carries the exclusive or through and undoes the IP⁻¹ of the step before:
/// each step applies IP to the new block alone. In contracts it is its 64 bits.
#[derive(Drop)]
pub struct ChainingValue {
    halves: u64,
}

impl Model for ChainingValue {
    ghost Value = { List ℕ };

    ghost view = { λ c. pick inverse_table (bits 64 c.halves) };
}

impl ChainingValue {
    /// 64 zeros.
    pub fn zero() -> ChainingValue
        ensures { result ≡ replicate 64 0 }
    {
        ChainingValue { halves: 0 }
    }

    /// Enciphers the exclusive or of the value and a block, under the schedule's key.
    pub fn chain(&mut self, schedule: &KeySchedule, block: u64)
        ensures { self.new ≡ cipher schedule.now (xor self.old (bits 64 block)) }
    {
        self.halves = schedule.rounds(self.halves ^ initial_permutation(block));
    }

    /// The value as a block.
    pub fn block(&self) -> u64
        ensures { bits 64 result ≡ self.now }
    {
        inverse_initial_permutation(self.halves)
    }
}
