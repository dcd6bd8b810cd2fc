//! The octets of a long run of hexadecimal digits, sixteen at a time.
//!
//! All digits of a block go through the same steps in arrays of fixed size, with no branch between them: the compiler makes vectors of
//! them, and a piece of a thousand octets takes a tenth of what it takes digit by digit.

ghost use Rattle.std.specs.Prelude.{◌≡◌, ◌<◌, ◌≤◌, ◌++◌, ◌-◌, true, length, map, replicate, IfOk, IfSome};
ghost use Rattle.er_base.specs.Hexadecimal.{octets_spelled};
ghost use Rattle.er_tap.specs.Digits as digits_model;

use er_base::NoMemory;
use std::alloc::Global;

/// What stands for the value of an octet that is no digit.
const NO_VALUE: u8 = 0xff;

// The value of a digit of either case.
fn value_of(digit: u8) -> u8
    ensures { result ≡ digits_model.value_of_hexadecimal_digit digit }
{
    let number = digit.wrapping_sub(b'0');
    let letter = (digit | 0x20).wrapping_sub(b'a');
    if number < 10 {
        number
    } else if letter < 6 {
        letter + 10
    } else {
        NO_VALUE
    }
}

// The values of a block of digits.
fn values_of(digits: &[u8; 32]) -> [u8; 32]
    ensures { result ≡ map digits_model.value_of_hexadecimal_digit digits.now }
{
    let mut values = [0; 32];
    'digits: for place in 0..32 {
        values[place] = value_of(digits[place]);
    }
    values
}

// One of two values that isn't below the other.
fn greater(one: u8, other: u8) -> u8
    ensures one { one ≤ result }
    ensures other { other ≤ result }
{
    if one < other { other } else { one }
}

// Of each two values at a place one that isn't below the other.
fn greatest_of(one: &[u8; 32], other: &[u8; 32]) -> [u8; 32]
    ensures one { digits_model.AreValues result → digits_model.AreValues one.now }
    ensures other { digits_model.AreValues result → digits_model.AreValues other.now }
{
    let mut greatest = [0; 32];
    'values: for place in 0..32 {
        greatest[place] = greater(one[place], other[place]);
    }
    greatest
}

// Whether all octets of a block are digits, by their values.
fn are_values(values: &[u8; 32]) -> bool
    ensures { result ≡ true → digits_model.AreValues values.now }
{
    let mut greatest = 0;
    'values: for value in values {
        greatest = greater(greatest, *value);
    }
    greatest < 16
}

// The octets of a block of values.
fn joined(values: &[u8; 32]) -> [u8; 16]
    ensures { digits_model.AreValues values.now → result ≡ digits_model.octets_of_digit_pairs values.now }
{
    let mut octets = [0; 16];
    'octets: for place in 0..16 {
        octets[place] = values[2 * place] << 4 | values[2 * place + 1];
    }
    octets
}

// Digits with zeros behind, as many as a block has.
fn filled(digits: &[u8]) -> [u8; 32]
    requires { length digits.now ≤ 32 }
    ensures { result ≡ digits.now ++ replicate (32 - length digits.now) 48 }
{
    let mut block = [b'0'; 32];
    block[..digits.len()].copy_from_slice(digits);
    block
}

/// The octets that an even, nonempty run of digits spells; None where it isn't one.
pub fn octets_in(alloc: Global, digits: &[u8]) -> Result<Option<Vec<u8>>, NoMemory>
    ensures some { IfOk result (λ found. IfSome found (λ _. 0 < length digits.now)) }
    ensures digits { IfOk result (λ found. IfSome found (λ _. digits_model.AreDigits digits.now)) }
    ensures octets { IfOk result (λ found. IfSome found (λ octets. octets_spelled digits.now ≡ Some octets.items)) }
{
    if digits.is_empty() || digits.len() % 2 == 1 {
        return Ok(None);
    }
    let mut octets = Vec::with_capacity(alloc, digits.len() / 2)?;
    // what isn't a digit is found behind the loop, which so has no test of a value
    let mut greatest = [0; 32];
    let mut rest = digits;
    while let Some((block, behind)) = rest.split_first_chunk::<32>() {
        let values = values_of(block);
        greatest = greatest_of(&greatest, &values);
        octets.extend_from_slice(&joined(&values))?;
        rest = behind;
    }
    let values = values_of(&filled(rest));
    if !are_values(&greatest_of(&greatest, &values)) {
        return Ok(None);
    }
    octets.extend_from_slice(&joined(&values)[..rest.len() / 2])?;
    Ok(Some(octets))
}
