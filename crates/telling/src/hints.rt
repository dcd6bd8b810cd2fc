//! What in a key file that can be read may not be what its writer meant.

use crate::shown::{put_quoted, put_text};
use er_base::NoMemory;
use std::alloc::Global;
use std::fmt::Write;
use toml::{Table, Value};

// The most hints of one file; a line says where there are more.
const MOST_HINTS: usize = 20;

// What is told of one file, a line each.
#[derive(Drop)]
struct Hints<'n> {
    alloc: Global,
    // The name of the file.
    name: &'n str,
    lines: Vec<String>,
}

impl<'n> Hints<'n> {
    fn is_full(&self) -> bool {
        self.lines.len() >= MOST_HINTS
    }

    // A line that begins with the name of the file and the number of an entry; 0 is the document itself.
    fn begun(&self, entry: usize) -> Result<String, NoMemory> {
        let mut line = String::new(self.alloc);
        put_text(&mut line, self.name)?;
        line.push_str(": ")?;
        if entry > 0 {
            write!(line, "entry {entry}: ")?;
        }
        Ok(line)
    }

    fn put(&mut self, entry: usize, text: &str) -> Result<(), NoMemory> {
        let mut line = self.begun(entry)?;
        line.push_str(text)?;
        self.lines.push(line)?;
        Ok(())
    }

    // A field that nothing reads, and why where that can be known.
    fn put_ignored(&mut self, entry: usize, field: &str, why: &str) -> Result<(), NoMemory> {
        let mut line = self.begun(entry)?;
        put_quoted(&mut line, field.as_bytes())?;
        line.push_str(" is ignored")?;
        line.push_str(why)?;
        self.lines.push(line)?;
        Ok(())
    }
}

/// What in a key file may not be what its writer meant, a line each: fields that are ignored, no entry at all, keys that are no
/// three keys. Nothing where the octets are no document of version 1 or 2: why they are refused is told elsewhere. No digit of a key is told.
pub fn key_hints(alloc: Global, name: &str, octets: &[u8]) -> Result<Vec<String>, NoMemory> {
    let mut hints = Hints {
        alloc,
        name,
        lines: Vec::new(alloc),
    };
    let Ok(document) = toml::table_from_slice(alloc, octets) else {
        return Ok(hints.lines);
    };
    let has_windows = match document.get("version").and_then(Value::as_integer) {
        Some(1) => false,
        Some(2) => true,
        _ => return Ok(hints.lines),
    };
    of_document(&mut hints, &document)?;
    let Some(entries) = document.get("key").and_then(Value::as_array) else {
        return Ok(hints.lines);
    };
    for (place, entry) in entries.iter().enumerate() {
        if hints.is_full() {
            hints.put(0, "and more such entries")?;
            break;
        }
        if let Some(table) = entry.as_table() {
            of_entry(&mut hints, place.saturating_add(1), table, has_windows)?;
        }
    }
    Ok(hints.lines)
}

// Of the fields beside the entries.
fn of_document(hints: &mut Hints<'_>, document: &Table) -> Result<(), NoMemory> {
    for (field, _) in document.iter() {
        match field.as_str() {
            "version" | "key" => {}
            "keys" | "Key" | "KEY" => {
                hints.put_ignored(0, field.as_str(), ": each entry begins with a line [[key]]")?;
            }
            other => hints.put_ignored(0, other, "")?,
        }
        if hints.is_full() {
            return Ok(());
        }
    }
    match document.get("key") {
        None => hints.put(0, "it has no entry, so no key"),
        Some(list) => match list.as_array() {
            Some(entries) if entries.is_empty() => hints.put(0, "it has no entry, so no key"),
            _ => Ok(()),
        },
    }
}

// Of one entry.
fn of_entry(
    hints: &mut Hints<'_>,
    number: usize,
    entry: &Table,
    has_windows: bool,
) -> Result<(), NoMemory> {
    for (field, _) in entry.iter() {
        match field.as_str() {
            "engine" | "rbc" | "kmac" => {}
            "from" | "to" if has_windows => {}
            "from" | "to" => hints.put_ignored(
                number,
                field.as_str(),
                " in a file of version 1: the key holds at every moment",
            )?,
            other => hints.put_ignored(number, other, "")?,
        }
        if hints.is_full() {
            return Ok(());
        }
    }
    if let Some(digits) = entry.get("kmac").and_then(Value::as_str) {
        if let Some(why) = weakness_of(digits.as_bytes()) {
            return hints.put(number, why);
        }
    }
    Ok(())
}

// Why 48 digits are no three keys, if they aren't.
fn weakness_of(digits: &[u8]) -> Option<&'static str> {
    let [first, second, third] = [digits.get(..16)?, digits.get(16..32)?, digits.get(32..48)?];
    if digits.iter().all(|digit| *digit == b'0') {
        return Some("kmac is zero");
    }
    if first.eq_ignore_ascii_case(second) && second.eq_ignore_ascii_case(third) {
        return Some("the three keys of kmac are equal, so it is as strong as one");
    }
    if first.eq_ignore_ascii_case(second) || second.eq_ignore_ascii_case(third) {
        return Some("two keys of kmac that follow each other are equal, so it is as strong as one");
    }
    None
}
