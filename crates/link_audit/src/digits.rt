//! Octets as hexadecimal digits.
//!
//! A digit is reckoned from its value and not looked up, so that the compiler writes many at once.

ghost use Rattle.std.specs.Prelude.{◌≡◌, ◌*◌, ◌/◌, ◌%◌, ◌++◌, ◌==◌, if◌then◌else◌, nat_lt, length, replicate, slice_index, OnOk};
ghost use Rattle.hex.specs.Hex.{lower_digits, encode_lower};
ghost use Rattle.er_base.specs.Hexadecimal.{hex_of};

use er_base::NoMemory;

// How far the letters are behind the digits of numbers.
fn gap_before(value: u8) -> u8
    ensures { result ≡ (if nat_lt value 10 then 0 else 39) }
{
    if value < 10 { 0 } else { b'a' - b'9' - 1 }
}

// The digit of the high half of an octet, in lower case.
fn high_digit(octet: u8) -> u8
    ensures { result ≡ slice_index lower_digits (octet / 16) }
{
    let value = octet >> 4;
    b'0' + value + gap_before(value)
}

// The digit of its low half.
fn low_digit(octet: u8) -> u8
    ensures { result ≡ slice_index lower_digits (octet % 16) }
{
    let value = octet % 16;
    b'0' + value + gap_before(value)
}

// Writes the digits of octets over twice as many octets.
fn write_digits(octets: &[u8], digits: &mut [u8])
    requires { length digits.old ≡ 2 * length octets.now }
    ensures { digits.new ≡ encode_lower octets.now }
{
    'octets: for place in 0..octets.len() {
        let octet = octets[place];
        digits[2 * place] = high_digit(octet);
        digits[2 * place + 1] = low_digit(octet);
    }
}

// Appends zeros, for digits that are written there.
fn put_zeros(count: usize, out: &mut Vec<u8>) -> Result<(), NoMemory>
    ensures { OnOk result (out.new.items ≡ out.old.items ++ replicate count 0) }
{
    out.resize(out.len().saturating_add(count), 0)?;
    Ok(())
}

/// Appends octets as a word of lower-case hexadecimal digits, or `-` for none.
#[tactic(auto, unfolding(er_base::specs::Hexadecimal::hex_of))]
pub fn put_digits(octets: &[u8], out: &mut Vec<u8>) -> Result<(), NoMemory>
    ensures { OnOk result (out.new.items ≡ out.old.items ++ hex_of octets.now) }
{
    if octets.is_empty() {
        out.push(b'-')?;
        return Ok(());
    }
    let before = out.len();
    put_zeros(octets.len() * 2, out)?;
    write_digits(octets, &mut out[before..]);
    Ok(())
}
