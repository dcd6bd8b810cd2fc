//! The first words of a tap's lines.

ghost use Rattle.std.specs.Prelude.{◌≡◌};
ghost use Rattle.er_tap.specs.Table.{line_word, line_named};

/// The lines of a tap behind its header.
#[derive(Clone, Copy, Debug, PartialEq, Eq)]
pub enum LineName {
    /// `link N E R MOMENT`
    Link,
    /// `octets N S HEX`
    Octets,
}

const ALL: [LineName; 2] = [LineName::Link, LineName::Octets];

impl LineName {
    /// The first word of the line.
    pub fn word(self) -> &'static [u8]
        ensures { result.now ≡ line_word self }
    {
        match self {
            LineName::Link => b"link",
            LineName::Octets => b"octets",
        }
    }

    /// The line that a word names, or None where it names none.
    pub fn named(word: &[u8]) -> Option<LineName>
        ensures { result ≡ line_named word.now }
    {
        ALL.iter().copied().find(|name| word == name.word())
    }
}
