//! Reads a trace, line by line.

ghost use Rattle.std.specs.Prelude.{◌≡◌, ◌≤◌, ◌+◌, length, map, IfOk};
ghost use Rattle.er_base.specs.Lines.{lines_of, rows_of};
ghost use Rattle.er_base.specs.Rows.{AnswersAsWordsSay};
ghost use Rattle.er_trace.specs.Answers.{AnswersAsTraceSays};
ghost use Rattle.er_trace.specs.Files.{event_line, refusal_line, outcome_line_check, line_says, entries_of, trace_from, trace_of};
ghost use Rattle.er_trace.specs.Readings.{IsWellSaid, trace_text_fault};
ghost use Rattle.er_trace.specs.Texts.{AreReadableEntries, CanBeRead};

use crate::arguments::{read_any_number, read_moment};
use crate::entry::Entry;
use crate::entry_list::EntryList;
use crate::event_name::EventName;
use crate::events::read_event;
use crate::header::read_settings;
use crate::outcome_name::OutcomeName;
use crate::outcomes::check_arguments;
use crate::refusal_name::RefusalName;
use crate::said::Said;
use crate::trace::Trace;
use er_base::{LineFault, Moment, TextFault, Why, next_row};
use er_settings::Settings;
use std::alloc::Global;

/// The most octets that a trace has.
const MOST_OCTETS: usize = 16_777_216;

fn at(line: usize, fault: LineFault) -> TextFault
    ensures { result ≡ trace_text_fault line fault }
{
    match fault {
        LineFault::Refused(why) => TextFault::At { line, why },
        LineFault::NoMemory(want) => TextFault::NoMemory(want),
    }
}

// The line of an event, from the words behind `>`.
#[tactic(auto, unfolding(crate::specs::Files::event_line))]
fn read_event_line(alloc: Global, words: &[&[u8]]) -> Result<Said, LineFault>
    ensures said { AnswersAsWordsSay result (event_line (map (λ w. w.now) words.now)) }
    ensures range { IfOk result (λ said. IsWellSaid said) }
{
    let [moment, conn, name, arguments @ ..] = words else {
        return Err(LineFault::Refused(Why::Count));
    };
    let Some(name) = EventName::named(name) else {
        return Err(LineFault::Refused(Why::Word));
    };
    if arguments.len() != name.arguments() {
        return Err(LineFault::Refused(Why::Count));
    }
    Ok(Said::Happens {
        moment: read_moment(moment)?,
        conn: read_any_number(conn)?,
        event: read_event(alloc, name, arguments)?,
    })
}

// The line of a refusal, from its connection and the words behind `refused`.
#[tactic(auto, unfolding(crate::specs::Files::refusal_line))]
fn check_refusal_line(alloc: Global, conn: &[u8], words: &[&[u8]]) -> Result<(), LineFault>
    ensures { AnswersAsWordsSay result (refusal_line conn.now (map (λ w. w.now) words.now)) }
{
    let Some((name, arguments)) = words.split_first() else {
        return Err(LineFault::Refused(Why::Count));
    };
    let Some(name) = RefusalName::named(name) else {
        return Err(LineFault::Refused(Why::Word));
    };
    if arguments.len() != name.kinds().len() {
        return Err(LineFault::Refused(Why::Count));
    }
    read_any_number(conn)?;
    check_arguments(alloc, name.kinds(), arguments)
}

// The line of an outcome, from the words behind `<`.
#[tactic(auto, unfolding(crate::specs::Files::outcome_line_check))]
fn check_outcome_line(alloc: Global, words: &[&[u8]]) -> Result<(), LineFault>
    ensures { AnswersAsWordsSay result (outcome_line_check (map (λ w. w.now) words.now)) }
{
    let Some((conn, behind)) = words.split_first() else {
        return Err(LineFault::Refused(Why::Count));
    };
    let Some((name, arguments)) = behind.split_first() else {
        return Err(LineFault::Refused(Why::Count));
    };
    if *name == b"refused".as_slice() {
        return check_refusal_line(alloc, conn, arguments);
    }
    let Some(name) = OutcomeName::named(name) else {
        return Err(LineFault::Refused(Why::Word));
    };
    if arguments.len() != name.kinds().len() {
        return Err(LineFault::Refused(Why::Count));
    }
    read_any_number(conn)?;
    check_arguments(alloc, name.kinds(), arguments)
}

// What a line behind the header says, from its words.
#[tactic(auto, unfolding(crate::specs::Files::line_says))]
fn read_line(alloc: Global, words: &[&[u8]]) -> Result<Said, LineFault>
    ensures said { AnswersAsWordsSay result (line_says (map (λ w. w.now) words.now)) }
    ensures range { IfOk result (λ said. IsWellSaid said) }
{
    let Some((mark, behind)) = words.split_first() else {
        return Err(LineFault::Refused(Why::Word));
    };
    if *mark == b">".as_slice() {
        return read_event_line(alloc, behind);
    }
    if *mark == b"<".as_slice() {
        check_outcome_line(alloc, behind)?;
        return Ok(Said::Tells);
    }
    Err(LineFault::Refused(Why::Word))
}

// The events of the lines behind the header, whose number is `header`.
fn read_entries(alloc: Global, header: usize, text: &[u8]) -> Result<EntryList, TextFault>
    requires { header + length text.now ≤ 16777216 }
    ensures exact { AnswersAsTraceSays result (entries_of (rows_of header (lines_of text.now))) }
    ensures range { IfOk result (λ entries. AreReadableEntries entries) }
{
    let mut entries = Vec::new(alloc);
    let mut number = header;
    let mut rest = text;
    while let Some((row, behind)) = next_row(number, rest) {
        number = row.number;
        rest = behind;
        match read_line(alloc, row.words.as_slice()) {
            Ok(
                Said::Happens {
                    moment,
                    conn,
                    event,
                },
            ) => {
                let line = number;
                let moment = Moment::new(moment);
                entries.push(Entry {
                    line,
                    moment,
                    conn,
                    event,
                })?;
            }
            Ok(Said::Tells) => {}
            Err(fault) => return Err(at(number, fault)),
        }
    }
    Ok(EntryList::new(entries))
}

// The trace of a header's settings and the lines behind it.
fn read_behind(
    alloc: Global,
    settings: Settings,
    header: usize,
    text: &[u8],
) -> Result<Trace, TextFault>
    requires room { header + length text.now ≤ 16777216 }
    requires modulo { settings.modulo ≡ 8 }
    ensures exact { AnswersAsTraceSays result (trace_from settings (entries_of (rows_of header (lines_of text.now)))) }
    ensures range { IfOk result (λ trace. CanBeRead trace) }
{
    match read_entries(alloc, header, text) {
        Ok(entries) => Ok(Trace { settings, entries }),
        Err(fault) => Err(fault),
    }
}

/// Reads a trace: the header `trace 1 WINDOW CREDIT SIZE T1 N2 SETUP`, then events and outcomes, a line each.
///
/// Comments and blank lines are skipped, words are parted by spaces, and a last line without LF is read too. Outcomes are held
/// against their grammar and dropped. A refused file is refused by the first faulty line and the first fault of that line; a file
/// of more than 16,777,216 octets is `Long` at line 0, and one without a line that isn't skipped is `Header` at line 1.
#[tactic(auto, unfolding(crate::specs::Files::trace_of))]
pub fn read(alloc: Global, bytes: &[u8]) -> Result<Trace, TextFault>
    ensures exact { AnswersAsTraceSays result (trace_of bytes.now) }
    ensures range { IfOk result (λ trace. CanBeRead trace) }
{
    if bytes.len() > MOST_OCTETS {
        return Err(TextFault::At {
            line: 0,
            why: Why::Long,
        });
    }
    let Some((header, rest)) = next_row(0, bytes) else {
        return Err(TextFault::At {
            line: 1,
            why: Why::Header,
        });
    };
    let Some(settings) = read_settings(header.words.as_slice()) else {
        return Err(TextFault::At {
            line: header.number,
            why: Why::Header,
        });
    };
    read_behind(alloc, settings, header.number, rest)
}
