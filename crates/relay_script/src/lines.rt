//! The lines behind the header: each tests how many words stand behind its first one, and reads them.

ghost use Rattle.std.specs.Prelude.{◌≡◌, map, IfOk};
ghost use Rattle.er_base.specs.Rows.{AnswersAsWordsSay};
ghost use Rattle.relay_script.specs.Readings.{line_of_change};
ghost use Rattle.relay_script.specs.ScriptRanges.{IsLineInRange};

use crate::arguments::{read_counted, read_delay, read_kind, read_mask, read_octets};
use crate::change::Change;
use crate::change_name::ChangeName;
use crate::script_line::ScriptLine;
use er_base::{LineFault, Why, read_side};
use std::alloc::Global;

fn lose(words: &[&[u8]]) -> Result<ScriptLine, LineFault>
    ensures line { AnswersAsWordsSay result (line_of_change ChangeName.Lose (map (λ w. w.now) words.now)) }
    ensures range { IfOk result (λ line. IsLineInRange line) }
{
    let [side, kind, number] = words else {
        return Err(LineFault::Refused(Why::Count));
    };
    Ok(ScriptLine {
        side: read_side(side)?,
        kind: read_kind(kind)?,
        number: read_counted(number)?,
        change: Change::Lose,
    })
}

fn repeat(words: &[&[u8]]) -> Result<ScriptLine, LineFault>
    ensures line { AnswersAsWordsSay result (line_of_change ChangeName.Repeat (map (λ w. w.now) words.now)) }
    ensures range { IfOk result (λ line. IsLineInRange line) }
{
    let [side, kind, number] = words else {
        return Err(LineFault::Refused(Why::Count));
    };
    Ok(ScriptLine {
        side: read_side(side)?,
        kind: read_kind(kind)?,
        number: read_counted(number)?,
        change: Change::Repeat,
    })
}

fn alter(alloc: Global, words: &[&[u8]]) -> Result<ScriptLine, LineFault>
    ensures line { AnswersAsWordsSay result (line_of_change ChangeName.Alter (map (λ w. w.now) words.now)) }
    ensures range { IfOk result (λ line. IsLineInRange line) }
{
    let [side, kind, number, place, mask] = words else {
        return Err(LineFault::Refused(Why::Count));
    };
    Ok(ScriptLine {
        side: read_side(side)?,
        kind: read_kind(kind)?,
        number: read_counted(number)?,
        change: Change::Alter {
            place: read_counted(place)?,
            mask: read_mask(alloc, mask)?,
        },
    })
}

fn put(alloc: Global, words: &[&[u8]]) -> Result<ScriptLine, LineFault>
    ensures line { AnswersAsWordsSay result (line_of_change ChangeName.Put (map (λ w. w.now) words.now)) }
    ensures range { IfOk result (λ line. IsLineInRange line) }
{
    let [side, kind, number, text] = words else {
        return Err(LineFault::Refused(Why::Count));
    };
    Ok(ScriptLine {
        side: read_side(side)?,
        kind: read_kind(kind)?,
        number: read_counted(number)?,
        change: Change::Put {
            text: read_octets(alloc, text)?,
        },
    })
}

fn delay(words: &[&[u8]]) -> Result<ScriptLine, LineFault>
    ensures line { AnswersAsWordsSay result (line_of_change ChangeName.Delay (map (λ w. w.now) words.now)) }
    ensures range { IfOk result (λ line. IsLineInRange line) }
{
    let [side, kind, number, milliseconds] = words else {
        return Err(LineFault::Refused(Why::Count));
    };
    Ok(ScriptLine {
        side: read_side(side)?,
        kind: read_kind(kind)?,
        number: read_counted(number)?,
        change: Change::Delay {
            milliseconds: read_delay(milliseconds)?,
        },
    })
}

fn close(words: &[&[u8]]) -> Result<ScriptLine, LineFault>
    ensures line { AnswersAsWordsSay result (line_of_change ChangeName.Close (map (λ w. w.now) words.now)) }
    ensures range { IfOk result (λ line. IsLineInRange line) }
{
    let [side, kind, number] = words else {
        return Err(LineFault::Refused(Why::Count));
    };
    Ok(ScriptLine {
        side: read_side(side)?,
        kind: read_kind(kind)?,
        number: read_counted(number)?,
        change: Change::Close,
    })
}

/// What a line says whose first word names it, from the words behind it.
pub fn read_change(
    alloc: Global,
    name: ChangeName,
    words: &[&[u8]],
) -> Result<ScriptLine, LineFault>
    ensures line { AnswersAsWordsSay result (line_of_change name (map (λ w. w.now) words.now)) }
    ensures range { IfOk result (λ line. IsLineInRange line) }
{
    match name {
        ChangeName::Lose => lose(words),
        ChangeName::Repeat => repeat(words),
        ChangeName::Alter => alter(alloc, words),
        ChangeName::Put => put(alloc, words),
        ChangeName::Delay => delay(words),
        ChangeName::Close => close(words),
    }
}
