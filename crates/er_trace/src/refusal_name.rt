//! Why a send was refused, as a trace spells it.

ghost use Rattle.std.specs.Prelude.{◌≡◌};
ghost use Rattle.er_trace.specs.Table.{refusal_word, refusal_named, refusal_kinds};

use crate::argument_kind::ArgumentKind;

/// The lines of a trace that are refusals of a send, by the word behind `refused`.
#[derive(Clone, Copy, Debug, PartialEq, Eq)]
pub enum RefusalName {
    /// `refused released R X`
    Released,
    /// `refused notconnected`
    NotConnected,
    /// `refused length K`
    Length,
    /// `refused full K`
    Full,
}

const ALL: [RefusalName; 4] = [
    RefusalName::Released,
    RefusalName::NotConnected,
    RefusalName::Length,
    RefusalName::Full,
];

impl RefusalName {
    /// The word of the refusal.
    pub fn word(self) -> &'static [u8]
        ensures { result.now ≡ refusal_word self }
    {
        match self {
            RefusalName::Released => b"released",
            RefusalName::NotConnected => b"notconnected",
            RefusalName::Length => b"length",
            RefusalName::Full => b"full",
        }
    }

    /// The refusal that a word names, or None where it names none.
    pub fn named(word: &[u8]) -> Option<RefusalName>
        ensures { result ≡ refusal_named word.now }
    {
        ALL.iter().copied().find(|name| word == name.word())
    }

    /// The kinds of the words behind that of the refusal.
    pub fn kinds(self) -> &'static [ArgumentKind]
        ensures { result.now ≡ refusal_kinds self }
    {
        match self {
            RefusalName::Released => &[ArgumentKind::Decimal(255), ArgumentKind::Decimal(255)],
            RefusalName::NotConnected => &[],
            RefusalName::Length | RefusalName::Full => &[ArgumentKind::Decimal(u64::MAX)],
        }
    }
}
