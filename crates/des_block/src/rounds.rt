//! The sixteen rounds of FIPS 46-3 on the two halves of a block, with the boxes and P joined.

ghost use Rattle.std.specs.Prelude.{bit_and, ◌≡◌, ◌-◌, ◌*◌, ◌^◌, ◌<◌, ◌++◌, [], drop, map, replicate, reverse, slice_index_or, take};
ghost use Rattle.bit_lists.specs.Bits.{bits, pick};
ghost use Rattle.des_block.specs.Boxes.{boxes};
ghost use Rattle.des_block.specs.Des.{box_output, cipher_function as cipher_function_of, rounds};
ghost use Rattle.des_block.specs.Representation.{kept_key, spread_places};
ghost use Rattle.des_block.specs.Tables.{permutation};

use crate::spread_boxes::SPREAD_BOXES;

/// The rounds under the kept keys in their order, on a block behind IP.
pub fn rounds_onward(keys: &[u64; 16], halves: u64) -> u64
    ensures { bits 64 result ≡ rounds (map kept_key keys.now) (take 32 (bits 64 halves)) (drop 32 (bits 64 halves)) }
{
    let mut left = (halves >> 32) as u32;
    let mut right = (halves & 0xffff_ffff) as u32;
    for key in keys {
        (left, right) = (right, left ^ cipher_function(right, *key));
    }
    join(right, left)
}

/// The rounds under the kept keys from the last to the first, on a block behind IP.
pub fn rounds_backward(keys: &[u64; 16], halves: u64) -> u64
    ensures { bits 64 result ≡ rounds (reverse (map kept_key keys.now)) (take 32 (bits 64 halves)) (drop 32 (bits 64 halves)) }
{
    let mut left = (halves >> 32) as u32;
    let mut right = (halves & 0xffff_ffff) as u32;
    for key in keys.iter().rev() {
        (left, right) = (right, left ^ cipher_function(right, *key));
    }
    join(right, left)
}

// Two halves as one block.
fn join(first: u32, second: u32) -> u64
    ensures { bits 64 result ≡ bits 32 first ++ bits 32 second }
{
    ((first as u64) << 32) | second as u64
}

// f(R, K). Each group of six bits that E makes of R stands in R rotated by 1 or by 29, in the low bits of
// an octet, and the key's group lies in the same octet of its word. No two boxes give a bit at one place, so
// that both `|` and `^` join what they give; taken in pairs it is joined in fewer steps one after another.
fn cipher_function(right: u32, key: u64) -> u32
    ensures { bits 32 result ≡ cipher_function_of (bits 32 right) (kept_key key) }
{
    let odd = right.rotate_left(29) ^ (key >> 32) as u32;
    let even = right.rotate_left(1) ^ (key & 0xffff_ffff) as u32;
    (spread(0, odd >> 24) | spread(1, even >> 24))
        ^ (spread(2, (odd >> 16) & 255) | spread(3, (even >> 16) & 255))
        ^ (spread(4, (odd >> 8) & 255) | spread(5, (even >> 8) & 255))
        ^ (spread(6, odd & 255) | spread(7, even & 255))
}

// P of what the box of this number, from 0 on, gives for the last six bits of an octet, with zeros for what
// the others give.
#[inline(always)]
fn spread(number: usize, octet: u32) -> u32
    requires number { number < 8 }
    requires octet { octet < 2 ^ 8 }
    ensures value { bits 32 result
        ≡ pick permutation (replicate (4 * number) 0 ++ (box_output (slice_index_or boxes number []) (bits 6 octet) ++ replicate (28 - 4 * number) 0)) }
    ensures places { bit_and result (spread_places number) ≡ result }
{
    SPREAD_BOXES[number][octet as usize]
}
