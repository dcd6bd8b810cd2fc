//! DES bit by bit, over the tables as the standard prints them.
//!
//! This body is easy to compare with FIPS 46-3. It stays as the program with which tests compare the one that
//! is used.

ghost use Rattle.std.specs.Prelude.{◌≡◌, ℕ, ◌-◌, ◌^◌, ◌<◌, ◌≤◌, ◌&&◌, length, map, nat_lt, slice_index, slice_index_or, [], IsTrue};
ghost use Rattle.std.specs.List.{list_all};
ghost use Rattle.bit_lists.specs.Bits.{bits, left_shift, pick};
ghost use Rattle.des_block.specs.Boxes.{boxes};
ghost use Rattle.des_block.specs.Des.{
  des_encipher,
  des_decipher,
  cipher as cipher_of,
  cipher_function as cipher_function_of,
  substituted,
  box_output as box_output_of,
  round_keys as round_keys_of,
};

use crate::tables::{
    BOXES, EXPANSION, INITIAL_PERMUTATION, INVERSE_INITIAL_PERMUTATION, LEFT_SHIFTS, PERMUTATION,
    PERMUTED_CHOICE_1, PERMUTED_CHOICE_2,
};

/// Enciphers a block under a key.
pub fn encipher(key: u64, block: u64) -> u64
    ensures { bits 64 result ≡ des_encipher (bits 64 key) (bits 64 block) }
{
    cipher(&round_keys(key), block)
}

/// Deciphers a block under a key.
pub fn decipher(key: u64, block: u64) -> u64
    ensures { bits 64 result ≡ des_decipher (bits 64 key) (bits 64 block) }
{
    let mut keys = round_keys(key);
    keys.reverse();
    cipher(&keys, block)
}

// IP, sixteen rounds, and IP⁻¹ of the exchanged halves.
fn cipher(keys: &[u64; 16], block: u64) -> u64
    ensures { bits 64 result ≡ cipher_of (map (bits 48) keys.now) (bits 64 block) }
{
    let permuted = select(&INITIAL_PERMUTATION, 64, block);
    let mut left = permuted >> 32;
    let mut right = permuted & 0xffff_ffff;
    for key in keys {
        let next = left ^ cipher_function(right, *key);
        left = right;
        right = next;
    }
    select(&INVERSE_INITIAL_PERMUTATION, 64, (right << 32) | left)
}

// f(R, K), of which the last 32 and 48 bits are read.
fn cipher_function(right: u64, key: u64) -> u64
    ensures value { bits 32 result ≡ cipher_function_of (bits 32 right) (bits 48 key) }
    ensures small { result < 2 ^ 32 }
{
    let expanded = select(&EXPANSION, 32, right);
    select(&PERMUTATION, 32, substitute(expanded ^ key))
}

// S of the last 48 bits.
fn substitute(x: u64) -> u64
    ensures value { bits 32 result ≡ substituted boxes (bits 48 x) }
    ensures small { result < 2 ^ 32 }
{
    let mut out = 0;
    for j in 0..8usize {
        out = (out << 4) | box_output(j, (x >> (42 - 6 * j)) & 63);
    }
    out
}

// What the box of this number, from 0 on, gives for six bits.
fn box_output(number: usize, six: u64) -> u64
    requires number { number < 8 }
    requires six { six < 2 ^ 6 }
    ensures value { bits 4 result ≡ box_output_of (slice_index_or boxes number []) (bits 6 six) }
    ensures small { result < 2 ^ 4 }
{
    let row = ((six >> 4) & 2) | (six & 1);
    let column = (six >> 1) & 15;
    BOXES[number][row as usize][column as usize] as u64
}

// The sixteen round keys, in the last 48 bits of each.
fn round_keys(key: u64) -> [u64; 16]
    ensures { map (bits 48) result ≡ round_keys_of (bits 64 key) }
{
    let chosen = select(&PERMUTED_CHOICE_1, 64, key);
    let mut c = chosen >> 28;
    let mut d = chosen & 0xfff_ffff;
    let mut keys = [0; 16];
    for i in 0..16usize {
        let shift = LEFT_SHIFTS[i] as u32;
        c = shifted_half(c, shift);
        d = shifted_half(d, shift);
        keys[i] = select(&PERMUTED_CHOICE_2, 56, (c << 28) | d);
    }
    keys
}

// The left shift of FIPS 46-3: 28 bits moved to the left by some places, those that leave coming in behind.
fn shifted_half(half: u64, by: u32) -> u64
    requires half { half < 2 ^ 28 }
    requires by { by ≤ 28 }
    ensures value { bits 28 result ≡ left_shift by (bits 28 half) }
    ensures small { result < 2 ^ 28 }
{
    ((half << by) | (half >> (28 - by))) & 0xfff_ffff
}

// The bits of `x`, which has `width` of them, at the table's places.
fn select(table: &[u8], width: u32, x: u64) -> u64
    requires places { IsTrue (list_all (λ place. nat_lt 0 place && nat_lt (place - 1) width) table.now) }
    requires narrow { width ≤ 64 }
    requires short { length table.now ≤ 64 }
    ensures value { bits (length table.now) result ≡ pick table.now (bits width x) }
    ensures small { result < 2 ^ length table.now }
{
    let mut out = 0;
    for place in table {
        out = (out << 1) | ((x >> (width - *place as u32)) & 1);
    }
    out
}
