//! Reads a script, line by line.

ghost use Rattle.std.specs.Prelude.{◌≡◌, ◌≤◌, ◌+◌, length, map, IfOk};
ghost use Rattle.er_base.specs.Lines.{lines_of, rows_of};
ghost use Rattle.er_base.specs.Rows.{AnswersAsWordsSay};
ghost use Rattle.relay_script.specs.Answers.{AnswersAsScriptSays};
ghost use Rattle.relay_script.specs.Files.{script_line_says, script_lines_said, is_script_header, script_from, script_of};
ghost use Rattle.relay_script.specs.Readings.{script_text_fault};
ghost use Rattle.relay_script.specs.ScriptRanges.{IsLineInRange, IsScriptInRange};

use crate::change_name::ChangeName;
use crate::line_list::LineList;
use crate::lines::read_change;
use crate::script::Script;
use crate::script_line::ScriptLine;
use er_base::{LineFault, TextFault, Why, next_row};
use std::alloc::Global;

/// The most octets that a script has.
const MOST_OCTETS: usize = 16_777_216;

fn at(line: usize, fault: LineFault) -> TextFault
    ensures { result ≡ script_text_fault line fault }
{
    match fault {
        LineFault::Refused(why) => TextFault::At { line, why },
        LineFault::NoMemory(want) => TextFault::NoMemory(want),
    }
}

// Whether these are the words of the header, `relay 1`.
#[tactic(auto, unfolding(crate::specs::Files::is_script_header))]
fn is_header(words: &[&[u8]]) -> bool
    ensures { result ≡ is_script_header (map (λ w. w.now) words.now) }
{
    let [name, version] = words else {
        return false;
    };
    if *name != b"relay".as_slice() {
        return false;
    }
    *version == b"1".as_slice()
}

// What a line behind the header says, from its words.
#[tactic(auto, unfolding(crate::specs::Files::script_line_says))]
fn read_line(alloc: Global, words: &[&[u8]]) -> Result<ScriptLine, LineFault>
    ensures said { AnswersAsWordsSay result (script_line_says (map (λ w. w.now) words.now)) }
    ensures range { IfOk result (λ line. IsLineInRange line) }
{
    let Some((first, arguments)) = words.split_first() else {
        return Err(LineFault::Refused(Why::Word));
    };
    let Some(name) = ChangeName::named(first) else {
        return Err(LineFault::Refused(Why::Word));
    };
    read_change(alloc, name, arguments)
}

// The script of the lines behind the header, whose number is `header`.
fn read_behind(alloc: Global, header: usize, text: &[u8]) -> Result<Script, TextFault>
    requires { header + length text.now ≤ 16777216 }
    ensures exact { AnswersAsScriptSays result (script_from (script_lines_said (rows_of header (lines_of text.now)))) }
    ensures range { IfOk result (λ script. IsScriptInRange script) }
{
    let mut lines = Vec::new(alloc);
    let mut number = header;
    let mut rest = text;
    while let Some((row, behind)) = next_row(number, rest) {
        number = row.number;
        rest = behind;
        match read_line(alloc, row.words.as_slice()) {
            Ok(line) => lines.push(line)?,
            Err(fault) => return Err(at(number, fault)),
        }
    }
    Ok(Script {
        lines: LineList::new(lines),
    })
}

/// Reads a script: the header `relay 1`, then its lines.
///
/// Comments and blank lines are skipped, words are parted by spaces, and a last line without LF is read too. A refused file is
/// refused by the first faulty line and the first fault of that line; a file of more than 16,777,216 octets is `Long` at line 0,
/// and one without a line that isn't skipped is `Header` at line 1.
#[tactic(auto, unfolding(crate::specs::Files::script_of))]
pub fn read(alloc: Global, bytes: &[u8]) -> Result<Script, TextFault>
    ensures exact { AnswersAsScriptSays result (script_of bytes.now) }
    ensures range { IfOk result (λ script. IsScriptInRange script) }
{
    if bytes.len() > MOST_OCTETS {
        return Err(TextFault::At {
            line: 0,
            why: Why::Long,
        });
    }
    let Some((header, rest)) = next_row(0, bytes) else {
        return Err(TextFault::At {
            line: 1,
            why: Why::Header,
        });
    };
    if !is_header(header.words.as_slice()) {
        return Err(TextFault::At {
            line: header.number,
            why: Why::Header,
        });
    }
    read_behind(alloc, header.number, rest)
}
