//! The round keys of FIPS 46-3, each in a word of eight groups.

ghost use Rattle.std.specs.Prelude.{◌≡◌, ◌^◌, ◌<◌, ◌++◌, drop, map, take};
ghost use Rattle.bit_lists.specs.Bits.{bits, pick};
ghost use Rattle.des_block.specs.Des.{round_keys};
ghost use Rattle.des_block.specs.Representation.{kept_key};
ghost use Rattle.des_block.specs.Tables.{permuted_choice_1 as choice_1, permuted_choice_2 as choice_2};

use crate::c_choices::C_CHOICES;
use crate::d_choices::D_CHOICES;
use crate::permutations::initial_permutation;
use crate::tables::LEFT_SHIFTS;

/// The sixteen round keys of a key.
pub fn round_key_words(key: u64) -> [u64; 16]
    ensures { map kept_key result ≡ round_keys (bits 64 key) }
{
    let (c, d) = permuted_choice_1(key);
    // Each half twice in a row, so that a left shift by any number of places is a part of the word.
    let c = (c << 28) | c;
    let d = (d << 28) | d;
    let mut words = [0; 16];
    let mut shifted = 0;
    for i in 0..16usize {
        shifted += LEFT_SHIFTS[i] as u32;
        words[i] = permuted_choice_2(c >> (28 - shifted), d >> (28 - shifted));
    }
    words
}

// C and D of a key, PC-1. IP brings together the bits that stand at one place of their octets, as PC-1 does,
// so that an octet of IP is eight bits of C or D in a row.
fn permuted_choice_1(key: u64) -> (u64, u64)
    ensures c { bits 28 result.0 ≡ take 28 (pick choice_1 (bits 64 key)) }
    ensures d { bits 28 result.1 ≡ drop 28 (pick choice_1 (bits 64 key)) }
    ensures small_c { result.0 < 2 ^ 28 }
    ensures small_d { result.1 < 2 ^ 28 }
{
    let rows = initial_permutation(key);
    let c = (((((((rows >> 24) & 0xff) << 8) | (rows >> 56)) << 8) | ((rows >> 16) & 0xff)) << 4)
        | ((rows >> 52) & 15);
    let d = ((((((rows & 0xff) << 8) | ((rows >> 40) & 0xff)) << 8) | ((rows >> 8) & 0xff)) << 4)
        | ((rows >> 48) & 15);
    (c, d)
}

// PC-2 of C and D, which are the last 28 bits of each word.
fn permuted_choice_2(c: u64, d: u64) -> u64
    ensures { kept_key result ≡ pick choice_2 (bits 28 c ++ bits 28 d) }
{
    let mut word = 0;
    for j in 0..4usize {
        word ^= C_CHOICES[j][((c >> (21 - 7 * j)) & 127) as usize];
    }
    for j in 0..4usize {
        word ^= D_CHOICES[j][((d >> (21 - 7 * j)) & 127) as usize];
    }
    word
}
