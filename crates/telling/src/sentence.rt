//! A sentence in pieces.

use crate::shown::{put_octets, put_quoted};
use er_base::NoMemory;
use std::fmt::Write;

/// A piece of a sentence.
#[derive(Clone, Copy)]
pub(crate) enum Piece<'a> {
    /// The program's own words.
    Text(&'static str),
    /// A word of a file, in quotation marks.
    Quoted(&'a [u8]),
    /// A word of a file, a number mostly.
    Plain(&'a [u8]),
    /// How many.
    Count(usize),
}

/// No piece.
pub(crate) const NOTHING: Piece<'static> = Piece::Text("");

/// Five pieces, the last of them mostly none.
pub(crate) type Sentence<'a> = [Piece<'a>; 5];

fn put_piece(line: &mut String, piece: Piece<'_>) -> Result<(), NoMemory> {
    match piece {
        Piece::Text(text) => Ok(line.push_str(text)?),
        Piece::Quoted(word) => put_quoted(line, word),
        Piece::Plain(word) => put_octets(line, word),
        Piece::Count(count) => Ok(write!(line, "{count}")?),
    }
}

/// Appends a sentence.
pub(crate) fn put_sentence(line: &mut String, sentence: &Sentence<'_>) -> Result<(), NoMemory> {
    for piece in sentence.iter() {
        put_piece(line, *piece)?;
    }
    Ok(())
}
