//! The arguments of a script's lines.

ghost use Rattle.std.specs.Prelude.{◌≡◌, ◌<◌, ◌≤◌, IfOk};
ghost use Rattle.er_base.specs.Arguments.{number_argument, text_argument};
ghost use Rattle.er_base.specs.Rows.{AnswersAsWordsSay};
ghost use Rattle.relay_script.specs.ScriptRanges.{IsOrdinal, IsDelay, IsPutText, IsMask};
ghost use Rattle.relay_script.specs.Table.{kind_argument, only_mask, octet_mask_argument};

use crate::unit_kind::UnitKind;
use er_base::{LineFault, Octets, Why, read_number, read_text};
use std::alloc::Global;

/// The greatest number of a unit and of an octet, and the longest delay in milliseconds.
const MOST: u64 = 1_000_000_000;
/// The most octets of a HEX word.
const MOST_TEXT_OCTETS: usize = 4_096;

/// Which unit or octet, 1 to 10^9.
pub fn read_counted(word: &[u8]) -> Result<u32, Why>
    ensures value { result ≡ number_argument 1 1000000000 word.now }
    ensures range { IfOk result (λ n. IsOrdinal n) }
{
    Ok(read_number(word, 1, MOST)? as u32)
}

/// Milliseconds, at most 10^9.
pub fn read_delay(word: &[u8]) -> Result<u32, Why>
    ensures value { result ≡ number_argument 0 1000000000 word.now }
    ensures range { IfOk result (λ n. IsDelay n) }
{
    Ok(read_number(word, 0, MOST)? as u32)
}

/// A kind of units.
pub fn read_kind(word: &[u8]) -> Result<UnitKind, Why>
    ensures { result ≡ kind_argument word.now }
{
    match UnitKind::named(word) {
        Some(kind) => Ok(kind),
        None => Err(Why::Value),
    }
}

/// Octets, at most 4,096.
pub fn read_octets(alloc: Global, word: &[u8]) -> Result<Octets, LineFault>
    ensures value { AnswersAsWordsSay result (text_argument 4096 word.now) }
    ensures range { IfOk result (λ t. IsPutText t) }
{
    read_text(alloc, word, MOST_TEXT_OCTETS)
}

// One octet other than 00.
fn only_mask(octets: &[u8]) -> Result<u8, Why>
    ensures value { result ≡ only_mask octets.now }
    ensures range { IfOk result (λ m. IsMask m) }
{
    match octets {
        [octet] if *octet != 0 => Ok(*octet),
        _ => Err(Why::Value),
    }
}

/// What an octet is altered with, one octet other than 00.
#[tactic(auto, unfolding(crate::specs::Table::octet_mask_argument))]
pub fn read_mask(alloc: Global, word: &[u8]) -> Result<u8, LineFault>
    ensures value { AnswersAsWordsSay result (octet_mask_argument word.now) }
    ensures range { IfOk result (λ m. IsMask m) }
{
    let octets = read_octets(alloc, word)?;
    Ok(only_mask(octets.as_slice())?)
}
