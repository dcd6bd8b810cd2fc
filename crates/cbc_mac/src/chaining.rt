//! The chaining over the blocks of a text.

ghost use Rattle.std.specs.Prelude.{◌≡◌, ◌≤◌, ◌++◌, length, replicate, take};
ghost use Rattle.std.specs.List.{flat_map};
ghost use Rattle.bit_lists.specs.Bits.{bits};
ghost use Rattle.cbc_mac.specs.Mac.{blocks, chained};

use des_block::{ChainingValue, TripleSchedule};

/// The chaining value behind the whole blocks of a text, under the first of three keys. Octets behind them
/// are left out.
pub fn chain(schedule: &TripleSchedule, text: &[u8]) -> u64
    ensures { bits 64 result ≡ chained (bits 64 schedule.now.first) (blocks text.now) }
{
    let first = schedule.first();
    let (whole, _) = text.as_chunks::<8>();
    let mut value = ChainingValue::zero();
    for block in whole {
        value.chain(first, u64::from_be_bytes(*block));
    }
    value.block()
}

/// Up to eight octets as a block, with zero octets behind (padding method 1).
pub fn padded_block(octets: &[u8]) -> u64
    requires { length octets.now ≤ 8 }
    ensures { bits 64 result ≡ flat_map (bits 8) (take 8 (octets.now ++ replicate 8 0)) }
{
    let mut block = [0; 8];
    block[..octets.len()].copy_from_slice(octets);
    u64::from_be_bytes(block)
}
