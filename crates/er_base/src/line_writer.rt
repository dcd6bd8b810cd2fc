//! Prints lines.

ghost use Rattle.std.specs.Prelude.{◌≡◌, ◌∷◌, ◌++◌, length, take, map, OnOk, OnErr};
ghost use Rattle.er_base.specs.LineTexts.{line_text, line_end};
ghost use Rattle.er_base.specs.Printing.{word_printed, Begins};

use crate::hexadecimal::hex_word;
use crate::no_memory::NoMemory;
use crate::numbers::decimal_word;

/// A word of a line that is printed.
#[derive(Clone, Copy)]
pub enum PrintedWord<'a> {
    /// The word itself.
    Plain(&'a [u8]),
    /// A decimal number.
    Decimal(u64),
    /// Octets, in hexadecimal.
    Hexadecimal(&'a [u8]),
}

// Appends a word.
#[inline(always)]
fn put_word(word: &PrintedWord<'_>, out: &mut Vec<u8>) -> Result<(), NoMemory>
    ensures ok { OnOk result (out.new.items ≡ out.old.items ++ word_printed word.now) }
    ensures err { OnErr result (out.new.items ≡ out.old.items) }
{
    match word {
        PrintedWord::Plain([octet]) => Ok(out.push(*octet)?),
        PrintedWord::Plain(word) => Ok(out.extend_from_slice(word)?),
        PrintedWord::Decimal(number) => decimal_word(*number, out),
        PrintedWord::Hexadecimal(octets) => hex_word(octets, out),
    }
}

// Appends words, each behind a space, and LF.
#[tactic(auto, unfolding(crate::specs::LineTexts::line_end))]
fn put_end(words: &[PrintedWord<'_>], out: &mut Vec<u8>) -> Result<(), NoMemory>
    ensures ok { OnOk result (out.new.items ≡ out.old.items ++ line_end (map word_printed words.now)) }
    ensures err { OnErr result (Begins out.old.items out.new.items) }
{
    for word in words {
        out.push(b' ')?;
        put_word(word, out)?;
    }
    out.push(b'\n')?;
    Ok(())
}

// Appends a line, and at its end leaves what was written of it where memory ended.
#[tactic(auto, unfolding(crate::specs::LineTexts::line_text))]
fn put_words(
    first: &PrintedWord<'_>,
    words: &[PrintedWord<'_>],
    out: &mut Vec<u8>,
) -> Result<(), NoMemory>
    ensures ok { OnOk result (out.new.items ≡ out.old.items ++ line_text (word_printed first.now ∷ map word_printed words.now)) }
    ensures err { OnErr result (Begins out.old.items out.new.items) }
{
    put_word(first, out)?;
    put_end(words, out)
}

/// Appends a line: its first word, the others, each behind a space, and LF.
///
/// After want of memory `out` is as it was.
pub fn put_line(
    first: &PrintedWord<'_>,
    words: &[PrintedWord<'_>],
    out: &mut Vec<u8>,
) -> Result<(), NoMemory>
    ensures ok { OnOk result (out.new.items ≡ out.old.items ++ line_text (word_printed first.now ∷ map word_printed words.now)) }
    ensures err { OnErr result (out.new.items ≡ out.old.items) }
{
    let before = out.len();
    match put_words(first, words, out) {
        Ok(()) => Ok(()),
        Err(want) => {
            out.truncate(before);
            Err(want)
        }
    }
}
