//! Decimal numbers in words of a text.

ghost use Rattle.std.specs.Prelude.{◌≡◌, ◌<◌, ◌+◌, ◌++◌, length, OnOk, OnErr};
ghost use Rattle.std.specs.Char.{is_ascii_digit};
ghost use Rattle.std.specs.Fmt.{decimal};
ghost use Rattle.std.specs.List.{list_all};
ghost use Rattle.er_base.specs.Numbers.{has_leading_zero, is_canonical, decimal_of};

use crate::no_memory::NoMemory;
use itoa::Buffer;
use std::str;

fn begins_with_zero(word: &[u8]) -> bool
    requires { 0 < length word.now }
    ensures { result ≡ has_leading_zero word.now }
{
    word[0] == b'0' && word.len() != 1
}

fn is_of_digits(word: &[u8]) -> bool
    ensures { result ≡ list_all is_ascii_digit word.now }
{
    word.iter().all(|octet| octet.is_ascii_digit())
}

fn is_plain(word: &[u8]) -> bool
    ensures { result ≡ is_canonical word.now }
{
    if word.is_empty() {
        return false;
    }
    if begins_with_zero(word) {
        return false;
    }
    is_of_digits(word)
}

/// The number that a decimal word names: digits alone, no leading zero, at most 2^64 - 1. Else None.
#[tactic(auto, using(crate::proofs::Decimals::decimal_lemmas), unfolding(crate::specs::Numbers::decimal_of))]
pub fn decimal(word: &[u8]) -> Option<u64>
    ensures { result ≡ decimal_of word.now }
{
    if !is_plain(word) {
        return None;
    }
    let Ok(text) = str::from_utf8(word) else {
        return None;
    };
    text.parse::<u64>().ok()
}

// The digit of a value below 10.
fn digit_of(value: u64) -> u8
    requires { value < 10 }
    ensures { result ≡ 48 + value }
{
    b'0' + value as u8
}

// Appends the digits of a number of four at the most.
#[tactic(auto, using(crate::proofs::ShortDecimals::one_digit, crate::proofs::ShortDecimals::two_digits, crate::proofs::ShortDecimals::three_digits, crate::proofs::ShortDecimals::four_digits))]
fn put_short(number: u64, out: &mut Vec<u8>) -> Result<(), NoMemory>
    requires { number < 10000 }
    ensures ok { OnOk result (out.new.items ≡ out.old.items ++ decimal number) }
    ensures err { OnErr result (out.new.items ≡ out.old.items) }
{
    let ones = digit_of(number % 10);
    if number < 10 {
        out.push(ones)?;
        return Ok(());
    }
    let tens = digit_of(number / 10 % 10);
    if number < 100 {
        out.extend_from_slice(&[tens, ones])?;
        return Ok(());
    }
    let hundreds = digit_of(number / 100 % 10);
    if number < 1_000 {
        out.extend_from_slice(&[hundreds, tens, ones])?;
        return Ok(());
    }
    let thousands = digit_of(number / 1_000);
    out.extend_from_slice(&[thousands, hundreds, tens, ones])?;
    Ok(())
}

/// Appends the decimal digits of a number, as [`decimal`] reads them.
///
/// After want of memory `out` is as it was.
pub fn decimal_word(number: u64, out: &mut Vec<u8>) -> Result<(), NoMemory>
    ensures ok { OnOk result (out.new.items ≡ out.old.items ++ decimal number) }
    ensures err { OnErr result (out.new.items ≡ out.old.items) }
{
    // Most are short.
    if number < 10_000 {
        return put_short(number, out);
    }
    let mut digits = Buffer::new();
    out.extend_from_slice(digits.format(number).as_bytes())?;
    Ok(())
}
