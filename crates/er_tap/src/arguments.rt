//! The arguments of a tap's lines.

ghost use Rattle.std.specs.Prelude.{◌≡◌, IfOk};
ghost use Rattle.er_base.specs.Arguments.{number_argument, text_argument};
ghost use Rattle.er_base.specs.Rows.{AnswersAsWordsSay};
ghost use Rattle.er_tap.specs.Ranges.{IsLink, IsEtcsNumber, IsMoment, IsTapLineText};

use er_base::{LineFault, MOST_ETCS_NUMBER, MOST_MOMENT, Octets, Why, read_number, read_text};
use std::alloc::Global;

/// The greatest link.
const MOST_LINKS: u64 = 64;
/// The most octets of a HEX word.
pub(crate) const MOST_TEXT_OCTETS: usize = 4_096;

/// A link, 1 to 64.
pub fn read_link(word: &[u8]) -> Result<u8, Why>
    ensures value { result ≡ number_argument 1 64 word.now }
    ensures range { IfOk result (λ n. IsLink n) }
{
    Ok(read_number(word, 1, MOST_LINKS)? as u8)
}

/// An ETCS number, below 2^24.
pub fn read_etcs_number(word: &[u8]) -> Result<u32, Why>
    ensures value { result ≡ number_argument 0 16777215 word.now }
    ensures range { IfOk result (λ n. IsEtcsNumber n) }
{
    Ok(read_number(word, 0, MOST_ETCS_NUMBER as u64)? as u32)
}

/// A moment, at most 10^15 milliseconds.
pub fn read_moment(word: &[u8]) -> Result<u64, Why>
    ensures value { result ≡ number_argument 0 1000000000000000 word.now }
    ensures range { IfOk result (λ n. IsMoment n) }
{
    read_number(word, 0, MOST_MOMENT)
}

/// Octets, at most 4,096.
pub fn read_octets(alloc: Global, word: &[u8]) -> Result<Octets, LineFault>
    ensures value { AnswersAsWordsSay result (text_argument 4096 word.now) }
    ensures range { IfOk result (λ t. IsTapLineText t) }
{
    read_text(alloc, word, MOST_TEXT_OCTETS)
}
