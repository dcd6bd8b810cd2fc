//! The check sequence octet by octet and bit by bit: the programs that the tables' is measured by.

ghost use Rattle.std.specs.Prelude.{◌≡◌};
ghost use Rattle.hdlc_fcs.specs.FrameCheck.{fcs_of};
ghost use Rattle.hdlc_fcs.specs.Register.{shifted, shifted_once, register_after};

use crate::sequence::{ONES, shift_one_by_one};

/// The generator x^16 + x^12 + x^5 + 1 without its first term, lowest bit first.
const GENERATOR: u16 = 0x8408;

/// The check sequence of the octets (ISO/IEC 13239, 16 bits), each octet by one look into one table. It is
/// [`crate::fcs`], slower.
pub fn fcs_by_octets(octets: &[u8]) -> u16
    ensures { result ≡ fcs_of octets.now }
{
    shift_one_by_one(ONES, octets) ^ ONES
}

/// The check sequence of the octets (ISO/IEC 13239, 16 bits), each bit shifted by itself. It is
/// [`crate::fcs`], slower.
pub fn fcs_by_bits(octets: &[u8]) -> u16
    ensures { result ≡ fcs_of octets.now }
{
    let mut register = ONES;
    for octet in octets {
        register = shift_octet(register ^ *octet as u16);
    }
    register ^ ONES
}

// The register after eight bits.
fn shift_octet(mut register: u16) -> u16
    ensures { result ≡ shifted 8 register }
{
    for _bit in 0..8u8 {
        register = shift_bit(register);
    }
    register
}

// The register after one bit.
fn shift_bit(register: u16) -> u16
    ensures { result ≡ shifted_once register }
{
    if register & 1 == 1 {
        register >> 1 ^ GENERATOR
    } else {
        register >> 1
    }
}
