//! The arguments of a trace's lines.

ghost use Rattle.std.specs.Prelude.{◌≡◌, ◌<◌, ◌≤◌, ◌^◌, IfOk};
ghost use Rattle.er_base.specs.Arguments.{number_argument, text_argument};
ghost use Rattle.er_base.specs.Rows.{AnswersAsWordsSay};
ghost use Rattle.er_trace.specs.Ranges.{IsMoment, IsEtcsNumber, IsOctet, IsEventText};
ghost use Rattle.er_trace.specs.Table.{releaser_argument};

use er_base::{
    EtcsNumber, LineFault, MOST_ETCS_NUMBER, MOST_MOMENT, Octets, Why, read_number, read_text,
};
use std::alloc::Global;

/// The most octets of a HEX word.
const MOST_TEXT_OCTETS: usize = 4_096;

/// A moment, at most 10^15 milliseconds.
pub fn read_moment(word: &[u8]) -> Result<u64, Why>
    ensures value { result ≡ number_argument 0 1000000000000000 word.now }
    ensures range { IfOk result (λ n. IsMoment n) }
{
    read_number(word, 0, MOST_MOMENT)
}

/// A number of 64 bits.
pub fn read_any_number(word: &[u8]) -> Result<u64, Why>
    ensures value { result ≡ number_argument 0 18446744073709551615 word.now }
    ensures range { IfOk result (λ n. n < 2 ^ 64) }
{
    read_number(word, 0, u64::MAX)
}

/// An ETCS number.
pub fn read_etcs_number(word: &[u8]) -> Result<EtcsNumber, Why>
    ensures value { result ≡ number_argument 0 16777215 word.now }
    ensures range { IfOk result (λ n. IsEtcsNumber n) }
{
    let number = read_number(word, 0, MOST_ETCS_NUMBER as u64)?;
    Ok(EtcsNumber::new(number as u32))
}

/// An octet: a reason or a sub-reason.
pub fn read_octet(word: &[u8]) -> Result<u8, Why>
    ensures value { result ≡ number_argument 0 255 word.now }
    ensures range { IfOk result (λ n. IsOctet n) }
{
    Ok(read_number(word, 0, u8::MAX as u64)? as u8)
}

/// Octets, at most 4,096.
pub fn read_octets(alloc: Global, word: &[u8]) -> Result<Octets, LineFault>
    ensures value { AnswersAsWordsSay result (text_argument 4096 word.now) }
    ensures range { IfOk result (λ t. IsEventText t) }
{
    read_text(alloc, word, MOST_TEXT_OCTETS)
}

/// Whether the peer released: `local` or `peer`, and any other word is `Word`.
pub fn read_releaser(word: &[u8]) -> Result<bool, Why>
    ensures { result ≡ releaser_argument word.now }
{
    if word == b"local".as_slice() {
        return Ok(false);
    }
    if word == b"peer".as_slice() {
        return Ok(true);
    }
    Err(Why::Word)
}
