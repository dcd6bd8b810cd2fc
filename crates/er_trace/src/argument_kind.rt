//! The kinds of arguments of a trace's lines.

ghost use Rattle.std.specs.Prelude.{◌≡◌};
ghost use Rattle.er_base.specs.Rows.{AnswersAsWordsSay};
ghost use Rattle.er_trace.specs.Readings.{is_argument};

use crate::arguments::{read_octets, read_releaser};
use er_base::{LineFault, read_number, read_number16};
use std::alloc::Global;

/// The kinds of arguments of a trace's lines.
#[derive(Clone, Copy, Debug, PartialEq, Eq)]
pub enum ArgumentKind {
    /// A decimal number up to a greatest one.
    Decimal(u64),
    /// Octets, at most 4,096.
    Hex,
    /// A number of 64 bits as 16 hexadecimal digits.
    Number16,
    /// Who released: `local` or `peer`.
    Releaser,
}

impl ArgumentKind {
    /// Reads a word as an argument of this kind, and keeps nothing of it.
    pub fn check(self, alloc: Global, word: &[u8]) -> Result<(), LineFault>
        ensures { AnswersAsWordsSay result (is_argument self word.now) }
    {
        match self {
            ArgumentKind::Decimal(most) => {
                read_number(word, 0, most)?;
                Ok(())
            }
            ArgumentKind::Hex => {
                let _octets = read_octets(alloc, word)?;
                Ok(())
            }
            ArgumentKind::Number16 => {
                read_number16(alloc, word)?;
                Ok(())
            }
            ArgumentKind::Releaser => {
                read_releaser(word)?;
                Ok(())
            }
        }
    }
}
