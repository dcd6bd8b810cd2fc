//! The hexadecimal digits of octets, sixteen octets at a time.
//!
//! All octets of a block go through the same steps in arrays of fixed size, with no branch between them: the compiler makes vectors of them,
//! and a word takes a third of what it takes digit by digit.

ghost use Rattle.std.specs.Prelude.{◌≡◌, ◌≤◌, ◌++◌, ◌-◌, ◌∷◌, ◌/◌, ◌%◌, [], length, replicate, slice_index, OnOk, OnErr};
ghost use Rattle.hex.specs.Hex.{encode_lower, lower_digits};
ghost use Rattle.er_base.specs.Printing.{Begins};

use crate::no_memory::NoMemory;

// The two digits of an octet, in lower case.
fn pair_of(octet: u8) -> [u8; 2]
    ensures { result ≡ slice_index lower_digits (octet / 16) ∷ slice_index lower_digits (octet % 16) ∷ [] }
{
    let octet = u16::from(octet);
    // Both values side by side, each in an octet of its own; then 1 at those that are letters.
    let values = (octet >> 4 | octet << 8) & 0x0f0f;
    let letters = (values + 0x0606) >> 4 & 0x0101;
    (values + 0x3030 + letters * 39).to_le_bytes()
}

// The digits of a block of octets.
fn digits_of(octets: &[u8; 16]) -> [u8; 32]
    ensures { result ≡ encode_lower octets.now }
{
    let mut digits = [0; 32];
    'octets: for place in 0..16 {
        let [high, low] = pair_of(octets[place]);
        digits[2 * place] = high;
        digits[2 * place + 1] = low;
    }
    digits
}

// Octets with zeros behind, as many as a block has.
fn filled(octets: &[u8]) -> [u8; 16]
    requires { length octets.now ≤ 16 }
    ensures { result ≡ octets.now ++ replicate (16 - length octets.now) 0 }
{
    let mut block = [0; 16];
    block[..octets.len()].copy_from_slice(octets);
    block
}

/// Appends the digits of octets, two an octet, in lower case; after want of memory some of them at the most.
pub(crate) fn put_digits(octets: &[u8], out: &mut Vec<u8>) -> Result<(), NoMemory>
    ensures ok { OnOk result (out.new.items ≡ out.old.items ++ encode_lower octets.now) }
    ensures err { OnErr result (Begins out.old.items out.new.items) }
{
    let mut rest = octets;
    while let Some((block, behind)) = rest.split_first_chunk::<16>() {
        out.extend_from_slice(&digits_of(block))?;
        rest = behind;
    }
    // A whole block costs less than a part of one.
    let before = out.len();
    out.extend_from_slice(&digits_of(&filled(rest)))?;
    out.truncate(before + 2 * rest.len());
    Ok(())
}
