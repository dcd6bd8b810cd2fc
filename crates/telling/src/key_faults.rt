//! Why a key file is refused.

use crate::line_words::{LineWords, word_at};
use crate::sentence::{NOTHING, Piece, Sentence, put_sentence};
use crate::shown::put_text;
use crate::table::texts_of;
use er_base::NoMemory;
use std::alloc::Global;
use std::fmt::Write;

/// Why a key file is refused, or a call has no key: `last` is the last line that was printed, `! keys ..`, and `text` the file,
/// where it can be read again. No digit of a key is told.
pub fn keys_refused(
    alloc: Global,
    name: &str,
    last: &[u8],
    text: Option<&[u8]>,
) -> Result<String, NoMemory> {
    let mut line = String::new(alloc);
    put_text(&mut line, name)?;
    line.push_str(": ")?;
    if word_at(last, 2) == b"document".as_slice() {
        put_place(&mut line, alloc, text.unwrap_or(b""))?;
    }
    put_sentence(&mut line, &sentence(last))?;
    Ok(line)
}

// What stands behind `! keys`, in words.
fn sentence(last: &[u8]) -> Sentence<'_> {
    let words = LineWords::of(last);
    let (before, between) = around(words.at(2), words.at(3), words.at(4));
    [
        Piece::Text(before),
        Piece::Plain(words.at(3)),
        Piece::Text(between),
        Piece::Plain(words.at(4)),
        NOTHING,
    ]
}

// Of each fault but that of a field, what stands before its first number, and between that and the second one.
const FAULTS: &str = "\
document|it is no document of TOML|
hex|entry |: kmac isn't 48 hexadecimal digits
number|entry |: a number is out of its range: engine and rbc are 0 to 16777215, from and to 0 to 1000000000000000
range|entry |: from is behind to
twice|of one pair, and holding at one moment, are the entries | and \n\
version|the version is to be 1 or 2, and is |
none|no key holds now of engine | and radio block centre ";

// What stands before the first number of a fault, and between it and the second one.
fn around(fault: &[u8], entry: &[u8], name: &[u8]) -> (&'static str, &'static str) {
    if fault == b"field".as_slice() {
        return ("entry ", field_of(entry, name));
    }
    match texts_of(FAULTS, fault) {
        Some(texts) => texts,
        None => ("the key file is refused", ""),
    }
}

fn field_of(entry: &[u8], name: &[u8]) -> &'static str {
    if entry == b"0".as_slice() {
        field_of_document(name)
    } else {
        field(name)
    }
}

// What a field is to be; its name stands behind.
fn field(name: &[u8]) -> &'static str {
    match name {
        b"kmac" => ": missing, or no string of 48 hexadecimal digits: ",
        _ => ": missing, or no whole number: ",
    }
}

// The same of the document, which is entry 0.
fn field_of_document(name: &[u8]) -> &'static str {
    match name {
        b"key" =>
            ", the document itself: no list of tables, each of which begins with a line [[key]]: ",
        _ => ", the document itself: missing, or no whole number: ",
    }
}

// Where and why it is no document.
fn put_place(line: &mut String, alloc: Global, text: &[u8]) -> Result<(), NoMemory> {
    let Err(error) = toml::table_from_slice(alloc, text) else {
        return Ok(());
    };
    let Some(span) = error.span() else {
        return Ok(());
    };
    let before = text.get(..span.start).unwrap_or(b"");
    let ends = before.iter().filter(|octet| **octet == b'\n').count();
    let number = ends.saturating_add(1);
    write!(line, "line {number}: ")?;
    put_text(line, error.message())?;
    line.push_str("; ")?;
    Ok(())
}
