//! IP and IP⁻¹ of FIPS 46-3, by exchanges of bits.

ghost use Rattle.std.specs.Prelude.{◌≡◌, ◌<◌};
ghost use Rattle.bit_lists.specs.Bits.{bits, pick};
ghost use Rattle.des_block.specs.Representation.{swapped};
ghost use Rattle.des_block.specs.Tables.{initial_permutation as initial_table, inverse_initial_permutation as inverse_table};

/// IP of a block: the permutation of its bits before the rounds.
pub fn initial_permutation(block: u64) -> u64
    ensures { bits 64 result ≡ pick initial_table (bits 64 block) }
{
    let x = swap(block, 36, 0x0f0f_0f0f);
    let x = swap(x, 48, 0x0000_ffff);
    let x = swap(x, 30, 0xcccc_cccc);
    let x = swap(x, 24, 0xff00_ff00);
    swap(x, 33, 0x5555_5555)
}

/// IP⁻¹ of a block: the permutation of its bits behind the rounds, which undoes IP.
pub fn inverse_initial_permutation(block: u64) -> u64
    ensures { bits 64 result ≡ pick inverse_table (bits 64 block) }
{
    let x = swap(block, 33, 0x5555_5555);
    let x = swap(x, 24, 0xff00_ff00);
    let x = swap(x, 30, 0xcccc_cccc);
    let x = swap(x, 48, 0x0000_ffff);
    swap(x, 36, 0x0f0f_0f0f)
}

// Each bit at a place of the mask changes places with the bit that lies `apart` above it.
fn swap(x: u64, apart: u32, mask: u64) -> u64
    requires { apart < 64 }
    ensures { result ≡ swapped apart mask x }
{
    let differing = (x ^ (x >> apart)) & mask;
    x ^ differing ^ (differing << apart)
}
