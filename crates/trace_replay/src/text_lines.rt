//! The lines of a text, octet by octet.

ghost use Rattle.std.specs.Prelude.{◌≡◌, ◌<◌, ◌≤◌, [], ◌∷◌, length, MatchOption, IfSome};
ghost use Rattle.std.specs.List.{prefix_len};
ghost use Rattle.er_base.specs.Lines.{is_of_line, lines_of, is_skipped};
ghost use Rattle.trace_model.specs.Recordings.{ended_part};

use er_base::next_word;
use memchr::{memchr, memrchr};

const LINE_FEED: u8 = b'\n';

// The octets before the first LF, or all where there is none.
fn line_length(text: &[u8]) -> usize
    ensures value { result ≡ prefix_len is_of_line text.now }
    ensures inside { result ≤ length text.now }
{
    match memchr(LINE_FEED, text) {
        Some(place) => place,
        None => text.len(),
    }
}

/// The first line of a text and what follows it, or None where no line is left.
pub fn next_line(text: &[u8]) -> Option<(&[u8], &[u8])>
    ensures cut { MatchOption result (lines_of text.now ≡ []) (λ p. lines_of text.now ≡ p.0.now ∷ lines_of p.1.now) }
    ensures less { IfSome result (λ p. length p.1.now < length text.now) }
{
    if text.is_empty() {
        return None;
    }
    let (line, rest) = text.split_at(line_length(text));
    match rest.split_first() {
        None => Some((line, rest)),
        Some((_, behind)) => Some((line, behind)),
    }
}

/// The part of a text up to its last LF, with it.
pub fn ended_part(text: &[u8]) -> &[u8]
    ensures { result.now ≡ ended_part text.now }
{
    match memrchr(LINE_FEED, text) {
        Some(place) => text.split_at(place + 1).0,
        None => &[],
    }
}

/// Whether a line is a comment or blank.
#[tactic(auto, unfolding(er_base::specs::Words::words_of))]
pub fn is_skipped(line: &[u8]) -> bool
    ensures { result ≡ is_skipped line.now }
{
    match line.split_first() {
        None => true,
        Some((octet, _)) => {
            if *octet == b'#' {
                return true;
            }
            match next_word(line) {
                None => true,
                Some(_) => false,
            }
        }
    }
}
