//! The list of all acts. It exists only in proofs.

ghost use Rattle.std.specs.Prelude.{◌≡◌, List, [], ◌∷◌, ◌++◌};
ghost use Rattle.std.specs.Borrow.{ftrue};
ghost use Rattle.outside.specs.Acts.{Act};

use crate::note::Note;
use std::marker::Model;

/// The acts so far. It takes no memory, and its calls do nothing when they run.
#[derive(Drop)]
pub struct History {
    pub ghost acts: { List Act },
}

impl Model for History {
    ghost also_owns = { λ _. ftrue };
}

impl History {
    ghost use Rattle.outside.specs.Notes.{act_of_note};

    /// No act was done yet.
    pub fn new() -> History
        ensures { result.acts ≡ [] }
    {
        History {}
    }

    // The history with one act more.
    #[inline(always)]
    fn then(&self, _note: &Note<'_>) -> History
        ensures { result.acts ≡ self.now.acts ++ act_of_note _note.now ∷ [] }
    {
        History {}
    }

    /// One act more is noted: for an object that makes the calls of an [`Outside`](crate::Outside), behind each of them.
    #[inline(always)]
    pub fn note(&mut self, note: &Note<'_>)
        ensures { self.new.acts ≡ self.old.acts ++ act_of_note note.now ∷ [] }
    {
        let next = self.then(note);
        *self = next;
    }
}
