//! The Triple Data Encryption Algorithm, with the key schedules of its three keys made once.

ghost use Rattle.std.specs.Prelude.{◌≡◌};
ghost use Rattle.bit_lists.specs.Bits.{bits};
ghost use Rattle.des_block.specs.declared.triple_key.TripleKey.{TripleKey};
ghost use Rattle.des_block.specs.Des.{round_keys};
ghost use Rattle.des_block.specs.Representation.{HasSchedules};
ghost use Rattle.des_block.specs.Triple.{triple_encipher};

use crate::key_schedule::KeySchedule;
use crate::permutations::{initial_permutation, inverse_initial_permutation};
use crate::triple_key::TripleKey;
use std::marker::Model;

/// Three keys with their key schedules, for a caller that enciphers many blocks under them.
///
/// In contracts it is the three keys.
#[derive(Drop)]
pub struct TripleSchedule {
    key: TripleKey,
    first: KeySchedule,
    second: KeySchedule,
    third: KeySchedule,
}

impl Model for TripleSchedule {
    ghost Value = { TripleKey };

    ghost view = { λ s. s.key };

    ghost invariant = { λ s. HasSchedules s.key s.first s.second s.third };
}

impl TripleSchedule {
    /// The schedules of three keys.
    pub fn new(key: &TripleKey) -> TripleSchedule
        ensures { result ≡ key.now }
    {
        TripleSchedule {
            key: *key,
            first: KeySchedule::new(key.first),
            second: KeySchedule::new(key.second),
            third: KeySchedule::new(key.third),
        }
    }

    /// The three keys.
    pub fn key(&self) -> TripleKey
        ensures { result ≡ self.now }
    {
        self.key
    }

    /// The schedule of the first key.
    pub fn first(&self) -> &KeySchedule
        ensures { result.now ≡ round_keys (bits 64 self.now.first) }
    {
        &self.first
    }

    /// Enciphers a block: enciphers it under the first key, deciphers that under the second and enciphers
    /// that under the third (FIPS 46-3).
    ///
    /// IP is applied once and IP⁻¹ once: between two keys they undo each other.
    pub fn encipher(&self, block: u64) -> u64
        ensures { bits 64 result ≡ triple_encipher self.now (bits 64 block) }
    {
        let halves = self.first.rounds(initial_permutation(block));
        let halves = self.second.rounds_backward(halves);
        inverse_initial_permutation(self.third.rounds(halves))
    }
}
