//! The round keys of one key, made once.

ghost use Rattle.std.specs.Prelude.{◌≡◌, ℕ, List, drop, map, reverse, take};
ghost use Rattle.bit_lists.specs.Bits.{bits};
ghost use Rattle.des_block.specs.Des.{cipher, round_keys, rounds as rounds_of};
ghost use Rattle.des_block.specs.Representation.{kept_key};

use crate::permutations::{initial_permutation, inverse_initial_permutation};
use crate::round_keys::round_key_words;
use crate::rounds::{rounds_backward, rounds_onward};
use std::marker::Model;

/// The key schedule of FIPS 46-3: the sixteen round keys of a key.
///
/// A caller with many blocks under one key makes it once. In contracts it is the list of its round keys,
/// each a list of 48 bits.
#[derive(Drop)]
pub struct KeySchedule {
    words: [u64; 16],
}

impl Model for KeySchedule {
    ghost Value = { List (List ℕ) };

    ghost view = { λ s. map kept_key s.words };
}

impl KeySchedule {
    /// The schedule of a key.
    pub fn new(key: u64) -> KeySchedule
        ensures { result ≡ round_keys (bits 64 key) }
    {
        KeySchedule {
            words: round_key_words(key),
        }
    }

    /// Enciphers a block under the schedule's key.
    pub fn encipher(&self, block: u64) -> u64
        ensures value { bits 64 result ≡ cipher self.now (bits 64 block) }
        ensures undone { cipher (reverse self.now) (bits 64 result) ≡ bits 64 block }
    {
        inverse_initial_permutation(self.rounds(initial_permutation(block)))
    }

    /// Deciphers a block under the schedule's key.
    pub fn decipher(&self, block: u64) -> u64
        ensures value { bits 64 result ≡ cipher (reverse self.now) (bits 64 block) }
        ensures undone { cipher self.now (bits 64 result) ≡ bits 64 block }
    {
        inverse_initial_permutation(self.rounds_backward(initial_permutation(block)))
    }

    /// The sixteen rounds alone, on a block that IP was applied to already and with IP⁻¹ still to come.
    pub(crate) fn rounds(&self, halves: u64) -> u64
        ensures { bits 64 result ≡ rounds_of self.now (take 32 (bits 64 halves)) (drop 32 (bits 64 halves)) }
    {
        rounds_onward(&self.words, halves)
    }

    /// The same under the round keys from the last to the first.
    pub(crate) fn rounds_backward(&self, halves: u64) -> u64
        ensures { bits 64 result ≡ rounds_of (reverse self.now) (take 32 (bits 64 halves)) (drop 32 (bits 64 halves)) }
    {
        rounds_backward(&self.words, halves)
    }
}
