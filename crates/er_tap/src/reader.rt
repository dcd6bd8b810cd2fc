//! Reads a tap, line by line.

ghost use Rattle.std.specs.Prelude.{◌≡◌, [], map, IfOk, IfErr, MatchOption};
ghost use Rattle.er_base.specs.Lines.{lines_of, rows_of};
ghost use Rattle.er_base.specs.Rows.{AnswersAsWordsSay};
ghost use Rattle.er_tap.specs.Answers.{AnswersAsTapSays};
ghost use Rattle.er_tap.specs.Files.{line_says, lines_said, is_header, tap_from, tap_of};
ghost use Rattle.er_tap.specs.Ranges.{IsInRange, CanBeRead};
ghost use Rattle.er_tap.specs.Readings.{tap_text_fault, RefusesLines, SaysFirst};

use crate::line_name::LineName;
use crate::plain_line::plain_line;
use crate::rest::Rest;
use crate::steps::read_step;
use crate::tap::Tap;
use crate::tap_line::TapLine;
use crate::tap_list::TapList;
use crate::tap_step::TapStep;
use er_base::{LineFault, TextFault, Why};
use std::alloc::Global;

fn at(line: usize, fault: LineFault) -> TextFault
    ensures { result ≡ tap_text_fault line fault }
{
    match fault {
        LineFault::Refused(why) => TextFault::At { line, why },
        LineFault::NoMemory(want) => TextFault::NoMemory(want),
    }
}

// Whether these are the words of the header, `tap 1`.
#[tactic(auto, unfolding(crate::specs::Files::is_header))]
fn is_header(words: &[&[u8]]) -> bool
    ensures { result ≡ is_header (map (λ w. w.now) words.now) }
{
    let [name, version] = words else {
        return false;
    };
    if *name != b"tap".as_slice() {
        return false;
    }
    *version == b"1".as_slice()
}

// What a line behind the header says, from its words.
#[tactic(auto, unfolding(crate::specs::Files::line_says))]
fn read_line(alloc: Global, words: &[&[u8]]) -> Result<TapStep, LineFault>
    ensures said { AnswersAsWordsSay result (line_says (map (λ w. w.now) words.now)) }
    ensures range { IfOk result (λ step. IsInRange step) }
{
    let Some((first, arguments)) = words.split_first() else {
        return Err(LineFault::Refused(Why::Word));
    };
    let Some(name) = LineName::named(first) else {
        return Err(LineFault::Refused(Why::Word));
    };
    read_step(alloc, name, arguments)
}

// Takes the first line that isn't skipped, read word by word, and answers what it says; None where no such line is left.
fn any_line(alloc: Global, rest: &mut Rest<'_>) -> Result<Option<TapLine>, TextFault>
    ensures line { IfOk result (λ found. MatchOption found (rows_of rest.old.before (lines_of rest.old.text) ≡ []) (λ line. SaysFirst rest.old line rest.new)) }
    ensures fault { IfErr result (λ fault. RefusesLines fault (lines_said (rows_of rest.old.before (lines_of rest.old.text)))) }
{
    let Some(row) = rest.next_row() else {
        return Ok(None);
    };
    match read_line(alloc, row.words.as_slice()) {
        Ok(step) => Ok(Some(TapLine {
            line: row.number,
            step,
        })),
        Err(fault) => Err(at(row.number, fault)),
    }
}

// The same, at once where the line is one of octets that is written as lines are printed.
fn next_line(alloc: Global, rest: &mut Rest<'_>) -> Result<Option<TapLine>, TextFault>
    ensures line { IfOk result (λ found. MatchOption found (rows_of rest.old.before (lines_of rest.old.text) ≡ []) (λ line. SaysFirst rest.old line rest.new)) }
    ensures fault { IfErr result (λ fault. RefusesLines fault (lines_said (rows_of rest.old.before (lines_of rest.old.text)))) }
{
    match plain_line(alloc, rest) {
        Ok(Some(line)) => Ok(Some(line)),
        Ok(None) => any_line(alloc, rest),
        Err(want) => Err(TextFault::NoMemory(want)),
    }
}

// The tap of the lines behind the header.
fn read_behind(alloc: Global, rest: &mut Rest<'_>) -> Result<Tap, TextFault>
    ensures exact { AnswersAsTapSays result (tap_from (lines_said (rows_of rest.old.before (lines_of rest.old.text)))) }
    ensures range { IfOk result (λ tap. CanBeRead tap) }
{
    let mut lines = Vec::new(alloc);
    loop {
        match next_line(alloc, rest) {
            Ok(Some(line)) => lines.push(line)?,
            Ok(None) => {
                return Ok(Tap {
                    lines: TapList::new(lines),
                });
            }
            Err(fault) => return Err(fault),
        }
    }
}

/// Reads a tap: the header `tap 1`, then lines `link N E R MOMENT` and `octets N S HEX`.
///
/// Comments and blank lines are skipped, words are parted by spaces, and a last line without LF is read too. A refused file is
/// refused by the first faulty line and the first fault of that line; a file of more than 16,777,216 octets is `Long` at line 0,
/// and one without a line that isn't skipped is `Header` at line 1.
#[tactic(auto, unfolding(crate::specs::Files::tap_of))]
pub fn read(alloc: Global, bytes: &[u8]) -> Result<Tap, TextFault>
    ensures exact { AnswersAsTapSays result (tap_of bytes.now) }
    ensures range { IfOk result (λ tap. CanBeRead tap) }
{
    let Some(mut rest) = Rest::of(bytes) else {
        return Err(TextFault::At {
            line: 0,
            why: Why::Long,
        });
    };
    let Some(header) = rest.next_row() else {
        return Err(TextFault::At {
            line: 1,
            why: Why::Header,
        });
    };
    if !is_header(header.words.as_slice()) {
        return Err(TextFault::At {
            line: header.number,
            why: Why::Header,
        });
    }
    read_behind(alloc, &mut rest)
}
