//! What the application is told of a key file that can't be had or is refused.

ghost use Rattle.std.specs.Prelude.{OnOk};
ghost use Rattle.application_loop.specs.KeysFetching.{IsOfFile, TellsKeysFault};

use application_lines::Notice;
use application_port::Port;
use er_base::PrintedWord::{Decimal, Plain};
use er_base::{NoMemory, PrintedWord};
use key_store::KeyFileFault;
use std::alloc::Global;

fn tell_words(words: &[PrintedWord<'_>], port: &mut Port) -> Result<(), NoMemory>
    ensures { OnOk result (TellsKeysFault port.old port.new) }
{
    port.tell(&Notice::KeysFault { words })
}

// The key file can't be had.
pub(crate) fn tell_no_key_file(port: &mut Port) -> Result<(), NoMemory>
    ensures { OnOk result (TellsKeysFault port.old port.new) }
{
    tell_words(&[Plain(b"fetch")], port)
}

// The key file has a version that is unknown.
fn tell_version(alloc: Global, version: i64, port: &mut Port) -> Result<(), NoMemory>
    ensures { OnOk result (TellsKeysFault port.old port.new) }
{
    let number = version.to_string(alloc)?;
    tell_words(&[Plain(b"version"), Plain(number.as_bytes())], port)
}

// A fault of one entry.
fn tell_entry(word: &[u8], entry: usize, port: &mut Port) -> Result<(), NoMemory>
    ensures { OnOk result (TellsKeysFault port.old port.new) }
{
    tell_words(&[Plain(word), Decimal(entry as u64)], port)
}

// The key file is refused. Of want of memory no word is told.
pub(crate) fn tell_key_fault(
    alloc: Global,
    fault: KeyFileFault,
    port: &mut Port,
) -> Result<(), NoMemory>
    ensures tells { OnOk result (TellsKeysFault port.old port.new) }
    ensures of_file { OnOk result (IsOfFile fault) }
{
    match fault {
        KeyFileFault::Document => tell_words(&[Plain(b"document")], port),
        KeyFileFault::Field { entry, name } => {
            let name = name.word().as_bytes();
            let words = [Plain(b"field"), Decimal(entry as u64), Plain(name)];
            tell_words(&words, port)
        }
        KeyFileFault::Hex { entry } => tell_entry(b"hex", entry, port),
        KeyFileFault::Number { entry } => tell_entry(b"number", entry, port),
        KeyFileFault::Range { entry } => tell_entry(b"range", entry, port),
        KeyFileFault::Twice { first, second } => {
            let words = [
                Plain(b"twice"),
                Decimal(first as u64),
                Decimal(second as u64),
            ];
            tell_words(&words, port)
        }
        KeyFileFault::Version(version) => tell_version(alloc, version, port),
        KeyFileFault::NoMemory(want) => Err(want),
    }
}
