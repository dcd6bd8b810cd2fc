//! A recording held against what a replay prints.

ghost use Rattle.std.specs.Prelude.{◌≡◌};
ghost use Rattle.std.specs.Str.{bytes_eq};
ghost use Rattle.trace_model.specs.Recordings.{is_outcome_line, check_verdict};

use crate::text_lines::{ended_part, is_skipped, next_line};
use trace_model::CheckVerdict;

// Whether a line tells an outcome.
fn is_outcome(line: &[u8]) -> bool
    ensures { result ≡ is_outcome_line line.now }
{
    match line.split_first() {
        None => false,
        Some((octet, _)) => *octet == b'<',
    }
}

// Whether two lines are the same, octet by octet.
fn is_same(line: &[u8], text: &[u8]) -> bool
    ensures { result ≡ bytes_eq line.now text.now }
{
    *line == *text
}

/// What is to be said of a file whose replay prints this.
pub fn verdict_on(file: &[u8], printed: &[u8]) -> CheckVerdict
    ensures { result ≡ check_verdict file.now printed.now }
{
    let ended = ended_part(file);
    let (mut rest, mut left) = (ended, printed);
    let (mut number, mut outcomes) = (0, 0);
    while let Some((line, behind)) = next_line(rest) {
        number += 1;
        rest = behind;
        if !is_skipped(line) {
            let Some((text, more)) = next_line(left) else {
                return CheckVerdict::Differs { line: number };
            };
            if !is_same(line, text) {
                return CheckVerdict::Differs { line: number };
            }
            if is_outcome(text) {
                outcomes += 1;
            }
            left = more;
        }
    }
    let line = number + 1;
    if ended.len() < file.len() {
        CheckVerdict::Cut { line }
    } else if !left.is_empty() {
        CheckVerdict::Missing { line }
    } else {
        CheckVerdict::Same { outcomes }
    }
}
