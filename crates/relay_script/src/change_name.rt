//! The first words of a script's lines.

ghost use Rattle.std.specs.Prelude.{◌≡◌};
ghost use Rattle.relay_script.specs.Table.{change_word, change_named};

/// The first words of a script's lines.
#[derive(Clone, Copy, Debug, PartialEq, Eq)]
pub enum ChangeName {
    /// `lose S KIND K`
    Lose,
    /// `repeat S KIND K`
    Repeat,
    /// `alter S KIND K PLACE MASK`
    Alter,
    /// `put S KIND K HEX`
    Put,
    /// `delay S KIND K MS`
    Delay,
    /// `close S KIND K`
    Close,
}

const ALL_CHANGES: [ChangeName; 6] = [
    ChangeName::Lose,
    ChangeName::Repeat,
    ChangeName::Alter,
    ChangeName::Put,
    ChangeName::Delay,
    ChangeName::Close,
];

impl ChangeName {
    /// The first word of the line.
    pub fn word(self) -> &'static [u8]
        ensures { result.now ≡ change_word self }
    {
        match self {
            ChangeName::Lose => b"lose",
            ChangeName::Repeat => b"repeat",
            ChangeName::Alter => b"alter",
            ChangeName::Put => b"put",
            ChangeName::Delay => b"delay",
            ChangeName::Close => b"close",
        }
    }

    /// The line that a first word begins, or None where it begins none.
    pub fn named(word: &[u8]) -> Option<ChangeName>
        ensures { result ≡ change_named word.now }
    {
        ALL_CHANGES.iter().copied().find(|name| word == name.word())
    }
}
