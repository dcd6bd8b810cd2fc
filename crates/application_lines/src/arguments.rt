//! The words behind the first one of an application's line.

ghost use Rattle.std.specs.Prelude.{◌≡◌, ◌≢◌, ◌<◌, ◌≤◌, ◌^◌, true, false, [], ◌∷◌, length, IfOk, MatchOption};
ghost use Rattle.er_base.specs.Arguments.{number_argument, text_argument};
ghost use Rattle.er_base.specs.Rows.{AnswersAsWordsSay};
ghost use Rattle.er_base.specs.Words.{words_of};
ghost use Rattle.application_lines.specs.Requests.{IsRequestText};

use er_base::{LineFault, Octets, Why, next_word, read_number, read_text};
use std::alloc::Global;

/// The most octets of a HEX word.
const MOST_TEXT_OCTETS: usize = 4_096;

/// The number of a connection.
pub fn read_connection(word: &[u8]) -> Result<u64, Why>
    ensures value { result ≡ number_argument 0 18446744073709551615 word.now }
    ensures range { IfOk result (λ n. n < 2 ^ 64) }
{
    read_number(word, 0, u64::MAX)
}

/// A sub-reason.
pub fn read_sub_reason(word: &[u8]) -> Result<u8, Why>
    ensures value { result ≡ number_argument 0 255 word.now }
    ensures range { IfOk result (λ n. n < 256) }
{
    Ok(read_number(word, 0, u8::MAX as u64)? as u8)
}

/// A message, of at most 4,096 octets.
pub fn read_message(alloc: Global, word: &[u8]) -> Result<Octets, LineFault>
    ensures value { AnswersAsWordsSay result (text_argument 4096 word.now) }
    ensures range { IfOk result (λ t. IsRequestText t) }
{
    read_text(alloc, word, MOST_TEXT_OCTETS)
}

/// Whether no word is left.
pub fn has_no_word(line: &[u8]) -> bool
    ensures none { result ≡ true → words_of line.now ≡ [] }
    ensures some { result ≡ false → 0 < length (words_of line.now) }
{
    next_word(line).is_none()
}

/// The two words that are left, or None where there are more or fewer.
pub fn two_words(line: &[u8]) -> Option<(&[u8], &[u8])>
    ensures { MatchOption result (length (words_of line.now) ≢ 2) (λ p. words_of line.now ≡ p.0.now ∷ p.1.now ∷ []) }
{
    let Some((first, behind)) = next_word(line) else {
        return None;
    };
    let Some((second, rest)) = next_word(behind) else {
        return None;
    };
    if !has_no_word(rest) {
        return None;
    }
    Some((first, second))
}
