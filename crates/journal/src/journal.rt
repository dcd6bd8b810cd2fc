//! An outside to which a journal is written.

ghost use Rattle.std.specs.Prelude.{◌<◌, ◌∷◌, [], length};
ghost use Rattle.std.specs.Result.{is_ok};
ghost use Rattle.outside.specs.Acts.{Wrote};
ghost use Rattle.outside.specs.Doings.{Did};
ghost use Rattle.journal.specs.Tallies.{IsTallyOf};

use crate::event_tally::EventTally;
use link_trait::Failed;
use outside::Outside;

/// An outside to which the lines of an event are written with what they count.
pub trait Journal: Outside {
    /// Writes the lines of one event behind what was written before. Where it fails, a beginning of them may have been written.
    fn record(&mut self, lines: &[u8], tally: &EventTally) -> Result<(), Failed>
        requires lines { 0 < length lines.now }
        requires tally { IsTallyOf lines.now tally.now }
        ensures does { Did (Self.told self.old) (Self.told self.new) (Wrote lines.now (is_ok result) ∷ []) };
}
