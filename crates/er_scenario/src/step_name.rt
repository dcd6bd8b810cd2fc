//! The lines of a drill file that are steps, by their first words.

ghost use Rattle.std.specs.Prelude.{◌≡◌};
ghost use Rattle.er_base.specs.declared.why.Why.TheVariants as why;
ghost use Rattle.er_base.specs.LineFaults.{demand};
ghost use Rattle.er_scenario.specs.Table.{step_word, step_named, levels_of, has_level};

use crate::level::Level;
use er_base::Why;

/// The lines of a drill file that are steps.
#[derive(Clone, Copy, Debug, PartialEq, Eq)]
pub enum StepName {
    /// `fixed N E R KEY KEY`
    Fixed,
    /// `link N E R KEY KEY RA RB`
    Link,
    /// `wire N`
    Wire,
    /// `send N S HEX`
    Send,
    /// `pass N S`
    Pass,
    /// `lose N S`
    Lose,
    /// `repeat N S`
    Repeat,
    /// `alter N S PLACE HEX`
    Alter,
    /// `put N S HEX`
    Put,
    /// `copy N S M T`
    Copy,
    /// `take N S`
    Take,
    /// `release N S X`
    Release,
    /// `tick MOMENT`
    Tick,
    /// `drain N MOST`
    Drain,
}

const ALL_STEPS: [StepName; 14] = [
    StepName::Fixed,
    StepName::Link,
    StepName::Wire,
    StepName::Send,
    StepName::Pass,
    StepName::Lose,
    StepName::Repeat,
    StepName::Alter,
    StepName::Put,
    StepName::Copy,
    StepName::Take,
    StepName::Release,
    StepName::Tick,
    StepName::Drain,
];

impl StepName {
    /// The first word of the line.
    pub fn word(self) -> &'static [u8]
        ensures { result.now ≡ step_word self }
    {
        match self {
            StepName::Fixed => b"fixed",
            StepName::Link => b"link",
            StepName::Wire => b"wire",
            StepName::Send => b"send",
            StepName::Pass => b"pass",
            StepName::Lose => b"lose",
            StepName::Repeat => b"repeat",
            StepName::Alter => b"alter",
            StepName::Put => b"put",
            StepName::Copy => b"copy",
            StepName::Take => b"take",
            StepName::Release => b"release",
            StepName::Tick => b"tick",
            StepName::Drain => b"drain",
        }
    }

    /// The line that a first word begins, or None where it begins none.
    pub fn named(word: &[u8]) -> Option<StepName>
        ensures { result ≡ step_named word.now }
    {
        ALL_STEPS.iter().copied().find(|name| word == name.word())
    }

    // Whether the line is one of a level.
    fn is_of(self, level: Level) -> bool
        ensures { result ≡ has_level (levels_of self) level }
    {
        match self {
            StepName::Fixed => level == Level::Safe,
            StepName::Link => level == Level::Safe || level == Level::Full,
            StepName::Wire => level == Level::Link || level == Level::LinkSr,
            StepName::Take => level == Level::Full,
            StepName::Tick => level != Level::Safe,
            StepName::Send | StepName::Pass | StepName::Lose | StepName::Repeat => true,
            StepName::Alter | StepName::Put | StepName::Copy => true,
            StepName::Release | StepName::Drain => true,
        }
    }

    /// `Level` where the line isn't one of this level.
    pub fn check(self, level: Level) -> Result<(), Why>
        ensures { result ≡ demand (has_level (levels_of self) level) why.Level }
    {
        if self.is_of(level) {
            Ok(())
        } else {
            Err(Why::Level)
        }
    }
}
