//! The arguments that drill files alone have.

ghost use Rattle.std.specs.Prelude.{◌≡◌, ◌<◌, ◌≤◌, IfOk};
ghost use Rattle.er_base.specs.Rows.{AnswersAsWordsSay};
ghost use Rattle.er_scenario.specs.Table.{three_keys, key_argument, optional_key_argument, mask_from, mask_argument};
ghost use Rattle.er_scenario.specs.StepRanges.{IsLink, IsKey, IsOptionalKey, IsStepText};
ghost use Rattle.er_scenario.specs.StepNumbers.{IsEtcsNumber, IsMoment};
ghost use Rattle.er_base.specs.Arguments.{number_argument, text_argument};

use des_block::TripleKey;
use er_base::{
    EtcsNumber, LineFault, MOST_ETCS_NUMBER, MOST_MOMENT, Moment, Octets, Why, number_of,
    read_exact, read_number, read_text,
};
use std::alloc::Global;

/// The greatest link.
const MOST_LINKS: u64 = 64;
/// The most octets of a HEX word.
const MOST_TEXT_OCTETS: usize = 4_096;
/// The octets of three keys.
const KEY_OCTETS: usize = 24;

/// A link, 1 to 64.
pub fn read_link(word: &[u8]) -> Result<u8, Why>
    ensures value { result ≡ number_argument 1 64 word.now }
    ensures range { IfOk result (λ n. IsLink n) }
{
    Ok(read_number(word, 1, MOST_LINKS)? as u8)
}

/// An ETCS number.
pub fn read_etcs_number(word: &[u8]) -> Result<EtcsNumber, Why>
    ensures value { result ≡ number_argument 0 16777215 word.now }
    ensures range { IfOk result (λ n. IsEtcsNumber n) }
{
    let number = read_number(word, 0, MOST_ETCS_NUMBER as u64)?;
    Ok(EtcsNumber::new(number as u32))
}

/// A moment in milliseconds.
pub fn read_moment(word: &[u8]) -> Result<Moment, Why>
    ensures value { result ≡ number_argument 0 1000000000000000 word.now }
    ensures range { IfOk result (λ n. IsMoment n) }
{
    Ok(Moment::new(read_number(word, 0, MOST_MOMENT)?))
}

/// The octets of a message or a frame, at most 4,096.
pub fn read_octets(alloc: Global, word: &[u8]) -> Result<Octets, LineFault>
    ensures value { AnswersAsWordsSay result (text_argument 4096 word.now) }
    ensures range { IfOk result (λ t. IsStepText t) }
{
    read_text(alloc, word, MOST_TEXT_OCTETS)
}

// Three keys of eight octets.
#[tactic(auto, unfolding(crate::specs::Table::three_keys))]
fn keys(octets: &[u8; KEY_OCTETS]) -> TripleKey
    ensures value { result ≡ three_keys octets.now }
    ensures range { IsKey result }
{
    let (first, rest) = octets.as_slice().split_first_chunk::<8>().unwrap();
    let (second, rest) = rest.split_first_chunk::<8>().unwrap();
    let (third, _) = rest.split_first_chunk::<8>().unwrap();
    TripleKey {
        first: number_of(first),
        second: number_of(second),
        third: number_of(third),
    }
}

/// Three keys, 48 hexadecimal digits.
#[tactic(auto, unfolding(crate::specs::Table::key_argument))]
pub fn read_key(alloc: Global, word: &[u8]) -> Result<TripleKey, LineFault>
    ensures value { AnswersAsWordsSay result (key_argument word.now) }
    ensures range { IfOk result (λ k. IsKey k) }
{
    let octets = read_exact(alloc, word, KEY_OCTETS)?;
    let Some((octets, _)) = octets.as_slice().split_first_chunk::<KEY_OCTETS>() else {
        return Err(LineFault::Refused(Why::Hex));
    };
    Ok(keys(octets))
}

/// Three keys, or `-` where there are none.
#[tactic(auto, unfolding(crate::specs::Table::optional_key_argument))]
pub fn read_optional_key(alloc: Global, word: &[u8]) -> Result<Option<TripleKey>, LineFault>
    ensures value { AnswersAsWordsSay result (optional_key_argument word.now) }
    ensures range { IfOk result (λ k. IsOptionalKey k) }
{
    if word == b"-".as_slice() {
        return Ok(None);
    }
    Ok(Some(read_key(alloc, word)?))
}

// One octet other than 00.
fn one_octet(octets: &[u8]) -> Result<u8, Why>
    ensures value { result ≡ mask_from octets.now }
    ensures range { IfOk result (λ m. (1 ≤ m) × (m < 256)) }
{
    match octets {
        [octet] if *octet != 0 => Ok(*octet),
        _ => Err(Why::Value),
    }
}

/// What an octet is altered with, one octet other than 00.
#[tactic(auto, unfolding(crate::specs::Table::mask_argument))]
pub fn read_mask(alloc: Global, word: &[u8]) -> Result<u8, LineFault>
    ensures value { AnswersAsWordsSay result (mask_argument word.now) }
    ensures range { IfOk result (λ m. (1 ≤ m) × (m < 256)) }
{
    let octets = read_octets(alloc, word)?;
    Ok(one_octet(octets.as_slice())?)
}
