//! How a run ends, in acts of its outside: its last line and the status that goes with it, a file that can't be had, and a key file that is refused.

ghost use Rattle.std.specs.Prelude.{◌≡◌, ◌∷◌, [], codes, map, string_bytes, IfOk};
ghost use Rattle.std.specs.Fmt.{signed_decimal};
ghost use Rattle.er_base.specs.LineTexts.{line_text};
ghost use Rattle.er_base.specs.Printing.{word_printed};
ghost use Rattle.key_store.specs.declared.key_file_fault.KeyFileFault.TheVariants as keys;
ghost use Rattle.outside.specs.Doings.{Did};
ghost use Rattle.outside.specs.Scripts.{Does, says_last};
ghost use Rattle.er_statuses.specs.KeyLines.{keys_line};
ghost use Rattle.er_statuses.specs.LastLines.{usage_line, fetch_line, fault_line, why_word};
ghost use Rattle.er_statuses.specs.ScriptEnds.{end_of_run, said_acts, EndsRefused, EndsSpent, ExitsBy};

use crate::last_lines::{fault_line, fetch_line, why_octets};
use crate::status::Status;
use crate::stop::Stop;
use er_base::PrintedWord::{Decimal, Plain};
use er_base::{NoMemory, PrintedWord, Why, put_line};
use key_store::KeyFileFault;
use link_trait::Failed;
use outside::Outside;
use std::alloc::Global;

/// Writes a text, which may be empty: then nothing is asked of the sink.
pub fn say<O: Outside>(text: &[u8], outside: &mut O) -> Result<(), Failed>
    ensures does { Did (O.told outside.old) (O.told outside.new) (said_acts text.now result) }
{
    if text.is_empty() {
        return Ok(());
    }
    outside.write(text)
}

/// Writes a text, and gives the status that goes with it.
pub fn last<O: Outside>(status: u8, text: &[u8], outside: &mut O) -> Result<Status, Stop>
    ensures does { Does (says_last status text.now) (O.told outside.old) (O.told outside.new) (end_of_run result) }
{
    match say(text, outside) {
        Ok(()) => Ok(Status(status)),
        Err(Failed) => Err(Stop::Sink),
    }
}

/// The last line of a run for which memory didn't suffice, and its status.
pub fn out_of_memory<O: Outside>(outside: &mut O) -> Status
    ensures ends { EndsSpent (O.told outside.old) (O.told outside.new) result.0 }
{
    match say(b"! memory\n", outside) {
        Ok(()) => Status(7),
        Err(Failed) => Status(5),
    }
}

/// The status of a run that ended so, behind the last line where memory didn't suffice.
pub fn exits<O: Outside>(ended: Result<Status, Stop>, outside: &mut O) -> Status
    ensures exits { ExitsBy (end_of_run ended) (O.told outside.old) (O.told outside.new) result.0 }
{
    match ended {
        Ok(status) => status,
        Err(Stop::Sink) => Status(5),
        Err(Stop::NoMemory(_want)) => out_of_memory(outside),
    }
}

/// The words fit no command.
pub fn misused<O: Outside>(outside: &mut O) -> Result<Status, Stop>
    ensures does { Does (says_last 1 usage_line) (O.told outside.old) (O.told outside.new) (end_of_run result) }
{
    last(1, b"! usage\n", outside)
}

/// The fetch of that name failed.
#[tactic(auto, using(outside::specs::ScriptSteps::does_spent))]
pub fn unfetched<O: Outside>(alloc: Global, name: &str, outside: &mut O) -> Result<Status, Stop>
    ensures does { Does (says_last 2 (fetch_line name.now)) (O.told outside.old) (O.told outside.new) (end_of_run result) }
{
    let line = fetch_line(alloc, name)?;
    last(2, line.as_slice(), outside)
}

/// What is to be told of a line of the file, alone or last.
#[tactic(auto, using(outside::specs::ScriptSteps::does_spent))]
pub fn told_line<O: Outside>(
    alloc: Global,
    status: u8,
    line: usize,
    word: &[u8],
    outside: &mut O,
) -> Result<Status, Stop>
    ensures does { Does (says_last status (fault_line line word.now)) (O.told outside.old) (O.told outside.new) (end_of_run result) }
{
    let line = fault_line(alloc, line, word)?;
    last(status, line.as_slice(), outside)
}

/// The file is out of its grammar.
#[tactic(auto, using(outside::specs::ScriptSteps::does_spent))]
pub fn out_of_form<O: Outside>(
    alloc: Global,
    line: usize,
    why: Why,
    outside: &mut O,
) -> Result<Status, Stop>
    ensures does { Does (says_last 3 (fault_line line (why_word why))) (O.told outside.old) (O.told outside.new) (end_of_run result) }
{
    let line = fault_line(alloc, line, why_octets(why))?;
    last(3, line.as_slice(), outside)
}

/// Writes the line `! keys` with these words.
#[tactic(auto, using(outside::specs::ScriptSteps::does_spent))]
pub fn say_keys<O: Outside>(
    alloc: Global,
    words: &[PrintedWord<'_>],
    outside: &mut O,
) -> Result<Status, Stop>
    ensures does { Does (says_last 4 (line_text (codes "!" ∷ map word_printed words.now))) (O.told outside.old) (O.told outside.new) (end_of_run result) }
{
    let mut line = Vec::new(alloc);
    put_line(&Plain(b"!"), words, &mut line)?;
    last(4, line.as_slice(), outside)
}

// A number with its sign.
fn decimal_text(alloc: Global, number: i64) -> Result<String, NoMemory>
    ensures { IfOk result (λ text. string_bytes text ≡ signed_decimal number) }
{
    Ok(number.to_string(alloc)?)
}

// The key file has a version that is unknown.
#[tactic(auto, using(outside::specs::ScriptSteps::does_spent))]
fn say_version<O: Outside>(alloc: Global, version: i64, outside: &mut O) -> Result<Status, Stop>
    ensures does { Does (says_last 4 (keys_line (keys.Version version))) (O.told outside.old) (O.told outside.new) (end_of_run result) }
{
    let number = decimal_text(alloc, version)?;
    let words = [Plain(b"keys"), Plain(b"version"), Plain(number.as_bytes())];
    say_keys(alloc, &words, outside)
}

/// The key file is refused: its line, or want of memory.
pub fn keys_refused<O: Outside>(
    alloc: Global,
    fault: KeyFileFault,
    outside: &mut O,
) -> Result<Status, Stop>
    ensures ends { EndsRefused fault (O.told outside.old) (O.told outside.new) (end_of_run result) }
{
    match fault {
        KeyFileFault::Document => {
            let words = [Plain(b"keys"), Plain(b"document")];
            say_keys(alloc, &words, outside)
        }
        KeyFileFault::Field { entry, name } => {
            let words = [
                Plain(b"keys"),
                Plain(b"field"),
                Decimal(entry as u64),
                Plain(name.word().as_bytes()),
            ];
            say_keys(alloc, &words, outside)
        }
        KeyFileFault::Hex { entry } => {
            let words = [Plain(b"keys"), Plain(b"hex"), Decimal(entry as u64)];
            say_keys(alloc, &words, outside)
        }
        KeyFileFault::Number { entry } => {
            let words = [Plain(b"keys"), Plain(b"number"), Decimal(entry as u64)];
            say_keys(alloc, &words, outside)
        }
        KeyFileFault::Range { entry } => {
            let words = [Plain(b"keys"), Plain(b"range"), Decimal(entry as u64)];
            say_keys(alloc, &words, outside)
        }
        KeyFileFault::Twice { first, second } => {
            let words = [
                Plain(b"keys"),
                Plain(b"twice"),
                Decimal(first as u64),
                Decimal(second as u64),
            ];
            say_keys(alloc, &words, outside)
        }
        KeyFileFault::Version(version) => say_version(alloc, version, outside),
        KeyFileFault::NoMemory(want) => Err(Stop::NoMemory(want)),
    }
}
