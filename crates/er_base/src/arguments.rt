//! The arguments of a line: each is read by itself, and answers its first fault.

ghost use Rattle.std.specs.Prelude.{◌≡◌, ◌<◌, ◌≤◌, ◌^◌, length, IfOk};
ghost use Rattle.er_base.specs.Octets.{AreOctets};
ghost use Rattle.er_base.specs.Arguments.{number_argument, side_argument, octets_argument, text_argument, exact_argument, number16_argument};
ghost use Rattle.er_base.specs.Rows.{AnswersAsWordsSay};

use crate::hexadecimal::{HexFault, octets_of};
use crate::line_fault::LineFault;
use crate::number_octets::number_of;
use crate::numbers::decimal;
use crate::octets::Octets;
use crate::side::Side;
use crate::why::Why;
use std::alloc::Global;

/// A decimal number from `least` to `most`: `Number` where the word is no decimal, `Value` where it is out of its range.
#[tactic(auto, unfolding(crate::specs::Arguments::number_argument))]
pub fn read_number(word: &[u8], least: u64, most: u64) -> Result<u64, Why>
    ensures value { result ≡ number_argument least most word.now }
    ensures range { IfOk result (λ n. (least ≤ n) × (n ≤ most)) }
{
    let Some(number) = decimal(word) else {
        return Err(Why::Number);
    };
    if number < least {
        return Err(Why::Value);
    }
    if number > most {
        return Err(Why::Value);
    }
    Ok(number)
}

/// The engine's side, `e`, or that of the radio block centre, `r`; any other word is `Number`.
#[tactic(auto, unfolding(crate::specs::Arguments::side_argument))]
pub fn read_side(word: &[u8]) -> Result<Side, Why>
    ensures { result ≡ side_argument word.now }
{
    match Side::named(word) {
        Some(side) => Ok(side),
        None => Err(Why::Number),
    }
}

// The octets of a HEX word.
#[tactic(auto, unfolding(crate::specs::Arguments::octets_argument))]
fn octets(alloc: Global, word: &[u8]) -> Result<Octets, LineFault>
    ensures value { AnswersAsWordsSay result (octets_argument word.now) }
    ensures octets { IfOk result (λ o. AreOctets o) }
{
    let mut octets = Vec::new(alloc);
    match octets_of(word, &mut octets) {
        Ok(()) => Ok(Octets::new(octets)),
        Err(HexFault::Hex) => Err(LineFault::Refused(Why::Hex)),
        Err(HexFault::NoMemory(want)) => Err(LineFault::NoMemory(want)),
    }
}

/// The octets of a HEX word, at most `most`: `Hex` where the word is no HEX, `Value` where there are more.
#[tactic(auto, unfolding(crate::specs::Arguments::text_argument))]
pub fn read_text(alloc: Global, word: &[u8], most: usize) -> Result<Octets, LineFault>
    ensures value { AnswersAsWordsSay result (text_argument most word.now) }
    ensures octets { IfOk result (λ o. AreOctets o) }
    ensures range { IfOk result (λ o. length o ≤ most) }
{
    let octets = octets(alloc, word)?;
    if octets.as_slice().len() > most {
        return Err(LineFault::Refused(Why::Value));
    }
    Ok(octets)
}

/// The octets of a HEX word of `count` octets; a word of another length is `Hex`.
#[tactic(auto, unfolding(crate::specs::Arguments::exact_argument))]
pub fn read_exact(alloc: Global, word: &[u8], count: usize) -> Result<Octets, LineFault>
    ensures value { AnswersAsWordsSay result (exact_argument count word.now) }
    ensures octets { IfOk result (λ o. AreOctets o) }
    ensures range { IfOk result (λ o. length o ≡ count) }
{
    let octets = octets(alloc, word)?;
    if octets.as_slice().len() != count {
        return Err(LineFault::Refused(Why::Hex));
    }
    Ok(octets)
}

/// A number of 64 bits as 16 hexadecimal digits; a word of another length is `Hex`.
#[tactic(auto, unfolding(crate::specs::Arguments::number16_argument))]
pub fn read_number16(alloc: Global, word: &[u8]) -> Result<u64, LineFault>
    ensures value { AnswersAsWordsSay result (number16_argument word.now) }
    ensures range { IfOk result (λ n. n < 2 ^ 64) }
{
    let octets = read_exact(alloc, word, 8)?;
    let Some((eight, _)) = octets.as_slice().split_first_chunk::<8>() else {
        return Err(LineFault::Refused(Why::Hex));
    };
    Ok(number_of(eight))
}
