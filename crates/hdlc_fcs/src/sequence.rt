//! The check sequence eight octets at a time, through eight tables.

ghost use Rattle.std.specs.Prelude.{◌≡◌, ◌+◌, ◌*◌, ◌<◌, bit_xor};
ghost use Rattle.hdlc_fcs.specs.FrameCheck.{fcs_of};
ghost use Rattle.hdlc_fcs.specs.Register.{shifted, register_after};

use crate::table::TABLES;

/// The register before the first octet.
pub(crate) const ONES: u16 = 0xffff;

/// The frame check sequence of the octets (ISO/IEC 13239, 16 bits): the complement of the remainder of
/// their bits, lowest first in each octet, divided by x^16 + x^12 + x^5 + 1. A frame carries its low octet
/// first.
pub fn fcs(octets: &[u8]) -> u16
    ensures { result ≡ fcs_of octets.now }
{
    shift_octets(ONES, octets) ^ ONES
}

// The register after the octets.
pub(crate) fn shift_octets(mut register: u16, octets: &[u8]) -> u16
    ensures { result ≡ register_after register octets.now }
{
    let mut rest = octets;
    while let Some((eight, more)) = rest.split_first_chunk::<8>() {
        register = shift_eight(register, eight);
        rest = more;
    }
    shift_one_by_one(register, rest)
}

// The register after the octets, each shifted by itself.
pub(crate) fn shift_one_by_one(mut register: u16, octets: &[u8]) -> u16
    ensures { result ≡ register_after register octets.now }
{
    for octet in octets {
        register = shift_octet(register, *octet);
    }
    register
}

// The register after eight octets: the first two meet the register's, and each has a table of its own. Those
// that meet no register come first, so that they needn't wait for it.
#[inline(always)]
fn shift_eight(register: u16, octets: &[u8; 8]) -> u16
    ensures { result ≡ register_after register octets.now }
{
    let [low, high] = register.to_le_bytes();
    entry(0, octets[7])
        ^ entry(1, octets[6])
        ^ entry(2, octets[5])
        ^ entry(3, octets[4])
        ^ entry(4, octets[3])
        ^ entry(5, octets[2])
        ^ (entry(6, octets[1] ^ high) ^ entry(7, octets[0] ^ low))
}

// The register after one octet.
#[inline(always)]
fn shift_octet(register: u16, octet: u8) -> u16
    ensures { result ≡ shifted 8 (bit_xor register octet) }
{
    let mixed = register ^ octet as u16;
    mixed >> 8 ^ entry(0, (mixed & 0xff) as u8)
}

// An octet shifted through the register, with `behind` octets behind it.
#[inline(always)]
fn entry(behind: usize, octet: u8) -> u16
    requires { behind < 8 }
    ensures { result ≡ shifted (8 * (behind + 1)) octet }
{
    TABLES[behind][octet as usize]
}
