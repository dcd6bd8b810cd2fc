//! How much of the stack a drill runs.

ghost use Rattle.std.specs.Prelude.{◌≡◌};
ghost use Rattle.er_scenario.specs.Table.{level_word, level_named};
ghost use Rattle.er_scenario.specs.Choices.{is_narrow};

use er_settings::Settings;

/// How much of the stack a drill runs.
#[derive(Clone, Copy, Debug, PartialEq, Eq)]
pub enum Level {
    /// The safety layer alone: what waits between two ends are SaPDUs.
    Safe,
    /// Two HDLC stations: what waits between them are frames, from flag to flag.
    Link,
    /// The whole stack: what waits between two ends are frames, from flag to flag.
    Full,
    /// Two HDLC stations with selective reject: what waits between them are frames, from flag to flag.
    LinkSr,
}

const ALL_LEVELS: [Level; 4] = [Level::Safe, Level::Link, Level::Full, Level::LinkSr];

impl Level {
    /// The word of this level in a header.
    pub fn word(self) -> &'static [u8]
        ensures { result.now ≡ level_word self }
    {
        match self {
            Level::Safe => b"safe",
            Level::Link => b"link",
            Level::Full => b"full",
            Level::LinkSr => b"link-sr",
        }
    }

    // The level that a word of a header names, or None where it names none.
    pub(crate) fn named(word: &[u8]) -> Option<Level>
        ensures { result ≡ level_named word.now }
    {
        ALL_LEVELS
            .iter()
            .copied()
            .find(|level| word == level.word())
    }

    // Whether the window of these settings is narrow enough for this level.
    pub(crate) fn allows(self, settings: &Settings) -> bool
        ensures { result ≡ is_narrow self settings.now.modulo settings.now.window }
    {
        match self {
            Level::LinkSr => 2 * settings.window as u64 <= settings.modulo as u64,
            Level::Safe | Level::Link | Level::Full => true,
        }
    }
}
