//! The lines of a text, and among them those that aren't skipped.

ghost use Rattle.std.specs.Prelude.{◌≡◌, true, false, ◌+◌, ◌<◌, ◌≤◌, ◌^◌, [], ◌∷◌, length, map, take, MatchOption, IfSome};
ghost use Rattle.std.specs.List.{prefix_len};
ghost use Rattle.er_base.specs.Words.{words_of};
ghost use Rattle.er_base.specs.Lines.{is_of_line, lines_of, is_comment, is_skipped, rows_of};
ghost use Rattle.er_base.specs.Rows.{IsFirstRow};

use crate::words::next_word;
use arrayvec::ArrayVec;
use memchr::memchr;

const LINE_FEED: u8 = b'\n';

const NUMBER_SIGN: u8 = b'#';

/// The words that are kept of a line. No line of a text has more than nine, so a line of ten is known as too long.
const MOST_WORDS: usize = 10;

/// A line that isn't skipped.
#[derive(Drop)]
pub struct LineWords<'a> {
    /// Its number in the file, from 1.
    pub number: usize,
    /// Its first ten words; all of them where there are fewer.
    pub words: ArrayVec<&'a [u8], MOST_WORDS>,
}

// The octets before the first LF, or all where there is none.
fn line_length(text: &[u8]) -> usize
    ensures value { result ≡ prefix_len is_of_line text.now }
    ensures inside { result ≤ length text.now }
{
    match memchr(LINE_FEED, text) {
        Some(place) => place,
        None => text.len(),
    }
}

// The first line of a text and what follows it, or None where no line is left.
fn next_line(text: &[u8]) -> Option<(&[u8], &[u8])>
    ensures cut { MatchOption result (lines_of text.now ≡ []) (λ p. lines_of text.now ≡ p.0.now ∷ lines_of p.1.now) }
    ensures less { IfSome result (λ p. length p.1.now < length text.now) }
{
    if text.is_empty() {
        return None;
    }
    let (line, rest) = text.split_at(line_length(text));
    match rest.split_first() {
        None => Some((line, rest)),
        Some((_, behind)) => Some((line, behind)),
    }
}

// An empty line or a comment; any other line may still be of spaces alone.
#[tactic(auto, unfolding(crate::specs::Words::words_of))]
fn is_empty_or_comment(line: &[u8]) -> bool
    ensures skipped { result ≡ true → is_skipped line.now ≡ true }
    ensures other { result ≡ false → is_comment line.now ≡ false }
{
    match line.split_first() {
        None => true,
        Some((octet, _)) => *octet == NUMBER_SIGN,
    }
}

// The first ten words of a line.
fn first_words(line: &[u8]) -> ArrayVec<&[u8], MOST_WORDS>
    ensures { map (λ w. w.now) result.items ≡ take 10 (words_of line.now) }
{
    let mut words = ArrayVec::new();
    let mut rest = line;
    while !words.is_full() {
        let Some((word, after)) = next_word(rest) else {
            return words;
        };
        words.push(word);
        rest = after;
    }
    words
}

/// The next line that isn't skipped and the text behind it, or None where no such line is left. So many lines stand
/// before this text.
#[tactic(auto, unfolding(crate::specs::Lines::rows_of))]
pub fn next_row(lines_before: usize, text: &[u8]) -> Option<(LineWords<'_>, &[u8])>
    requires { lines_before + length text.now < 2 ^ 64 }
    ensures cut { MatchOption result
        (rows_of lines_before (lines_of text.now) ≡ [])
        (λ p. IsFirstRow lines_before text.now p.0 p.1.now) }
    ensures less { IfSome result (λ p. length p.1.now < length text.now) }
    ensures count { IfSome result (λ p. p.0.number + length p.1.now ≤ lines_before + length text.now) }
{
    let mut number = lines_before;
    let mut rest = text;
    while let Some((line, behind)) = next_line(rest) {
        number += 1;
        if !is_empty_or_comment(line) {
            let words = first_words(line);
            if !words.is_empty() {
                return Some((LineWords { number, words }, behind));
            }
        }
        rest = behind;
    }
    None
}
