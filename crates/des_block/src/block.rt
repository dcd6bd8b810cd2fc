//! One block under one key.

ghost use Rattle.std.specs.Prelude.{◌≡◌};
ghost use Rattle.bit_lists.specs.Bits.{bits};
ghost use Rattle.des_block.specs.Des.{des_encipher, des_decipher};

use crate::key_schedule::KeySchedule;

/// Enciphers a block under a key (FIPS 46-3).
pub fn encipher(key: u64, block: u64) -> u64
    ensures value { bits 64 result ≡ des_encipher (bits 64 key) (bits 64 block) }
    ensures undone { des_decipher (bits 64 key) (bits 64 result) ≡ bits 64 block }
{
    KeySchedule::new(key).encipher(block)
}

/// Deciphers a block under a key (FIPS 46-3).
pub fn decipher(key: u64, block: u64) -> u64
    ensures value { bits 64 result ≡ des_decipher (bits 64 key) (bits 64 block) }
    ensures undone { des_encipher (bits 64 key) (bits 64 result) ≡ bits 64 block }
{
    KeySchedule::new(key).decipher(block)
}
