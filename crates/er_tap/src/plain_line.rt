//! A line of octets that is written as lines are printed: `octets N S HEX`, its words parted by single spaces, LF behind.
//!
//! Nearly all lines of a tap are such, and most octets of a tap stand in their HEX words. So they are known at once, and any other line is
//! read word by word.

ghost use Rattle.std.specs.Prelude.{◌≡◌, ◌++◌, codes, IfOk, IfSome, IsNone};
ghost use Rattle.std.specs.Fmt.{decimal};
ghost use Rattle.er_base.specs.Sides.{side_word};
ghost use Rattle.er_tap.specs.Ranges.{IsLink};
ghost use Rattle.er_tap.specs.Readings.{SaysFirst};

use crate::arguments::MOST_TEXT_OCTETS;
use crate::digits::octets_in;
use crate::rest::Rest;
use crate::tap_line::TapLine;
use crate::tap_step::TapStep;
use er_base::{NoMemory, Octets, Side};
use memchr::memchr;
use std::alloc::Global;

const LINE_FEED: u8 = b'\n';

/// The greatest link.
const MOST_LINKS: u8 = 64;

// The link of one digit that the words begin with, and what follows the space behind it.
fn short_link(words: &[u8]) -> Option<(u8, &[u8])>
    ensures words { IfSome result (λ p. words.now ≡ decimal p.0 ++ (codes " " ++ p.1.now)) }
    ensures link { IfSome result (λ p. IsLink p.0) }
{
    let [units, b' ', rest @ ..] = words else {
        return None;
    };
    if *units < b'1' {
        return None;
    }
    if *units > b'9' {
        return None;
    }
    Some((*units - b'0', rest))
}

// The link of two digits that the words begin with, and what follows the space behind it.
fn long_link(words: &[u8]) -> Option<(u8, &[u8])>
    ensures words { IfSome result (λ p. words.now ≡ decimal p.0 ++ (codes " " ++ p.1.now)) }
    ensures link { IfSome result (λ p. IsLink p.0) }
{
    let [tens, units, b' ', rest @ ..] = words else {
        return None;
    };
    if *tens < b'1' {
        return None;
    }
    if *tens > b'6' {
        return None;
    }
    if *units < b'0' {
        return None;
    }
    if *units > b'9' {
        return None;
    }
    let link = (*tens - b'0') * 10 + (*units - b'0');
    if link > MOST_LINKS {
        return None;
    }
    Some((link, rest))
}

// The link that the words begin with, and what follows the space behind it.
fn link_before(words: &[u8]) -> Option<(u8, &[u8])>
    ensures words { IfSome result (λ p. words.now ≡ decimal p.0 ++ (codes " " ++ p.1.now)) }
    ensures link { IfSome result (λ p. IsLink p.0) }
{
    match short_link(words) {
        Some(found) => Some(found),
        None => long_link(words),
    }
}

// The side that the words begin with, and what follows the space behind it.
fn side_before(words: &[u8]) -> Option<(Side, &[u8])>
    ensures { IfSome result (λ p. words.now ≡ side_word p.0 ++ (codes " " ++ p.1.now)) }
{
    match words {
        [b'e', b' ', rest @ ..] => Some((Side::E, rest)),
        [b'r', b' ', rest @ ..] => Some((Side::R, rest)),
        _ => None,
    }
}

// The link, the side and the HEX word of a line.
fn parts_of(line: &[u8]) -> Option<(u8, Side, &[u8])>
    ensures line { IfSome result (λ p. line.now ≡ codes "octets " ++ (decimal p.0 ++ (codes " " ++ (side_word p.1 ++ (codes " " ++ p.2.now))))) }
    ensures link { IfSome result (λ p. IsLink p.0) }
{
    let [b'o', b'c', b't', b'e', b't', b's', b' ', words @ ..] = line else {
        return None;
    };
    let (link, words) = link_before(words)?;
    let (side, digits) = side_before(words)?;
    Some((link, side, digits))
}

/// Takes the first line, where it is such a line, and answers what it says; else nothing changes.
pub fn plain_line(alloc: Global, rest: &mut Rest<'_>) -> Result<Option<TapLine>, NoMemory>
    ensures says { IfOk result (λ found. IfSome found (λ line. SaysFirst rest.old line rest.new)) }
    ensures rests { IfOk result (λ found. IsNone found → rest.new ≡ rest.old) }
{
    er_base::laws::printed_lines();
    er_base::laws::printed_words();
    er_base::laws::spelled_octets();
    let Some(end) = memchr(LINE_FEED, rest.text) else {
        return Ok(None);
    };
    let Some((link, side, digits)) = parts_of(&rest.text[..end]) else {
        return Ok(None);
    };
    let Some(octets) = octets_in(alloc, digits)? else {
        return Ok(None);
    };
    if octets.len() > MOST_TEXT_OCTETS {
        return Ok(None);
    }
    rest.before += 1;
    rest.text = &rest.text[end + 1..];
    let step = TapStep::Octets {
        link,
        side,
        text: Octets::new(octets),
    };
    Ok(Some(TapLine {
        line: rest.before,
        step,
    }))
}
