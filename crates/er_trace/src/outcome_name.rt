//! The names of outcomes, as traces spell them.

ghost use Rattle.std.specs.Prelude.{◌≡◌};
ghost use Rattle.er_trace.specs.Table.{outcome_word, outcome_named, outcome_kinds};

use crate::argument_kind::ArgumentKind;
use er_base::MOST_ETCS_NUMBER;

/// The lines of a trace that are outcomes, refusals aside.
#[derive(Clone, Copy, Debug, PartialEq, Eq)]
pub enum OutcomeName {
    /// `connected PEER`
    Connected,
    /// `accepted HEX`
    Accepted,
    /// `taken HEX`
    Taken,
    /// `none`
    Empty,
    /// `released R X local` or `released R X peer`
    Released,
    /// `octets HEX`
    Octets,
}

const ALL: [OutcomeName; 6] = [
    OutcomeName::Connected,
    OutcomeName::Accepted,
    OutcomeName::Taken,
    OutcomeName::Empty,
    OutcomeName::Released,
    OutcomeName::Octets,
];

impl OutcomeName {
    /// The word of the outcome.
    pub fn word(self) -> &'static [u8]
        ensures { result.now ≡ outcome_word self }
    {
        match self {
            OutcomeName::Connected => b"connected",
            OutcomeName::Accepted => b"accepted",
            OutcomeName::Taken => b"taken",
            OutcomeName::Empty => b"none",
            OutcomeName::Released => b"released",
            OutcomeName::Octets => b"octets",
        }
    }

    /// The outcome that a word names, or None where it names none.
    pub fn named(word: &[u8]) -> Option<OutcomeName>
        ensures { result ≡ outcome_named word.now }
    {
        ALL.iter().copied().find(|name| word == name.word())
    }

    /// The kinds of the words behind that of the outcome.
    pub fn kinds(self) -> &'static [ArgumentKind]
        ensures { result.now ≡ outcome_kinds self }
    {
        match self {
            OutcomeName::Connected => &[ArgumentKind::Decimal(MOST_ETCS_NUMBER as u64)],
            OutcomeName::Accepted | OutcomeName::Taken => &[ArgumentKind::Hex],
            OutcomeName::Empty => &[],
            OutcomeName::Released => &[
                ArgumentKind::Decimal(255),
                ArgumentKind::Decimal(255),
                ArgumentKind::Releaser,
            ],
            OutcomeName::Octets => &[ArgumentKind::Hex],
        }
    }
}
