//! What is left of a tap.

ghost use Rattle.std.specs.Prelude.{◌≡◌, ◌<◌, ◌≤◌, [], length, MatchOption, IfSome, IsNone};
ghost use Rattle.er_base.specs.Lines.{lines_of, rows_of};
ghost use Rattle.er_base.specs.Rows.{IsFirstRow};

use er_base::{LineWords, next_row};
use std::marker::Model;

/// The most octets that a tap has.
const MOST_OCTETS: usize = 16_777_216;

/// What is left of a tap, behind so many of its lines: together no more than the most octets, so that each line has a number.
#[derive(Drop)]
pub struct Rest<'t> {
    pub(crate) before: usize,
    pub(crate) text: &'t [u8],
}

impl<'t> Model for Rest<'t> {
    ghost use Rattle.std.specs.Prelude.{◌+◌, ◌≤◌, length};
    ghost use Rattle.er_tap.specs.Readings.{KRest};

    ghost Value = { KRest };

    ghost view = { λ r. record { before = r.before; text = r.text.now } };

    ghost invariant = { λ r. r.before + length r.text.now ≤ 16777216 };
}

impl<'t> Rest<'t> {
    /// All of a tap. None exactly where it has too many octets.
    pub fn of(text: &'t [u8]) -> Option<Rest<'t>>
        ensures all { MatchOption result (16777216 < length text.now) (λ rest. rest ≡ record { before = 0; text = text.now }) }
        ensures short { IfSome result (λ _. length text.now ≤ 16777216) }
    {
        if text.len() > MOST_OCTETS {
            return None;
        }
        Some(Rest { before: 0, text })
    }

    /// Takes the lines up to and with the first that isn't skipped, and gives its words; None where no such line is left.
    pub fn next_row(&mut self) -> Option<LineWords<'t>>
        ensures cut { MatchOption result (rows_of self.old.before (lines_of self.old.text) ≡ []) (λ row. IsFirstRow self.old.before self.old.text row self.new.text) }
        ensures number { IfSome result (λ row. self.new.before ≡ row.number) }
        ensures less { IfSome result (λ _. length self.new.text < length self.old.text) }
        ensures rests { IsNone result → self.new ≡ self.old }
    {
        let (row, behind) = next_row(self.before, self.text)?;
        self.before = row.number;
        self.text = behind;
        Some(row)
    }
}
