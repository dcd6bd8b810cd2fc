//! Octets that are spelled by two hexadecimal digits each.

ghost use Rattle.std.specs.Prelude.{◌≡◌, ◌<◌, ◌%◌, ◌*◌, ◌++◌, ◌↔◌, true, false, codes, length, replicate, OnOk, OnErr};
ghost use Rattle.std.specs.Char.{is_ascii_hexdigit};
ghost use Rattle.std.specs.List.{list_all};
ghost use Rattle.std.specs.Str.{bytes_eq};
ghost use Rattle.er_base.specs.Hexadecimal.{octets_spelled, hex_of, AppendsSpelled};
ghost use Rattle.er_base.specs.declared.hexadecimal.HexFault.TheVariants as fault;

use crate::digits::put_digits;
use crate::no_memory::NoMemory;

/// Why a word gave no octets.
#[derive(Clone, Copy, Debug, PartialEq, Eq)]
pub enum HexFault {
    /// The word is neither `-` nor an even, nonempty run of hexadecimal digits.
    Hex,
    /// Want of memory.
    NoMemory(NoMemory),
}

impl From<NoMemory> for HexFault {
    ghost from_gives = { λ want e. e ≡ fault.NoMemory want };

    fn from(want: NoMemory) -> HexFault {
        HexFault::NoMemory(want)
    }
}

fn is_of_hex_digits(word: &[u8]) -> bool
    ensures { result ≡ list_all is_ascii_hexdigit word.now }
{
    word.iter().all(|octet| octet.is_ascii_hexdigit())
}

/// Appends zeros, for octets that are written there.
fn put_zeros(count: usize, out: &mut Vec<u8>) -> Result<(), NoMemory>
    ensures ok { OnOk result (out.new.items ≡ out.old.items ++ replicate count 0) }
    ensures err { OnErr result (out.new.items ≡ out.old.items) }
{
    out.resize(out.len().saturating_add(count), 0)?;
    Ok(())
}

/// Writes the octets of an even run of hexadecimal digits over half as many octets.
fn decode(digits: &[u8], octets: &mut [u8])
    requires other { bytes_eq digits.now (codes "-") ≡ false }
    requires some { 0 < length digits.now }
    requires digits { list_all is_ascii_hexdigit digits.now ≡ true }
    requires half { length digits.now ≡ 2 * length octets.old }
    ensures { octets_spelled digits.now ≡ Some octets.new }
{
    hex::decode_to_slice(digits, octets).unwrap();
}

/// Appends the octets of an even run of hexadecimal digits.
fn put_spelled(digits: &[u8], out: &mut Vec<u8>) -> Result<(), NoMemory>
    requires other { bytes_eq digits.now (codes "-") ≡ false }
    requires some { 0 < length digits.now }
    requires even { length digits.now % 2 ≡ 0 }
    requires digits { list_all is_ascii_hexdigit digits.now ≡ true }
    ensures ok { OnOk result (AppendsSpelled digits.now out.old.items out.new.items) }
    ensures err { OnErr result (out.new.items ≡ out.old.items) }
{
    let before = out.len();
    put_zeros(digits.len() / 2, out)?;
    decode(digits, &mut out[before..]);
    Ok(())
}

/// Appends the octets of a hexadecimal word, of digits of either case; `-` stands for no octets.
///
/// After a fault `out` is as it was.
#[tactic(auto, using(crate::proofs::Spellings::spelled_lemmas), unfolding(crate::specs::Hexadecimal::octets_spelled))]
pub fn octets_of(word: &[u8], out: &mut Vec<u8>) -> Result<(), HexFault>
    ensures ok { OnOk result (AppendsSpelled word.now out.old.items out.new.items) }
    ensures hex { (result ≡ Err HexFault.Hex) ↔ (octets_spelled word.now ≡ None) }
    ensures err { OnErr result (out.new.items ≡ out.old.items) }
{
    if word == b"-".as_slice() {
        return Ok(());
    }
    if word.is_empty() {
        return Err(HexFault::Hex);
    }
    if word.len() % 2 == 1 {
        return Err(HexFault::Hex);
    }
    if !is_of_hex_digits(word) {
        return Err(HexFault::Hex);
    }
    put_spelled(word, out)?;
    Ok(())
}

/// Appends octets as a word of lower-case hexadecimal digits, or `-` for none.
///
/// After want of memory `out` is as it was.
#[tactic(auto, unfolding(crate::specs::Hexadecimal::hex_of))]
pub fn hex_word(octets: &[u8], out: &mut Vec<u8>) -> Result<(), NoMemory>
    ensures ok { OnOk result (out.new.items ≡ out.old.items ++ hex_of octets.now) }
    ensures err { OnErr result (out.new.items ≡ out.old.items) }
{
    if octets.is_empty() {
        out.push(b'-')?;
        return Ok(());
    }
    let before = out.len();
    match put_digits(octets, out) {
        Ok(()) => Ok(()),
        Err(want) => {
            out.truncate(before);
            Err(want)
        }
    }
}
