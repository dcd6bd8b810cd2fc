//! What the definition of a check implies, as a fact that a caller can cite. The function does nothing; its contract is the law.

ghost use Rattle.trace_replay.specs.Laws.{SameIsPrinted};

/// A recording is the same exactly where its lines that aren't skipped are those that a replay prints, octet by octet, and its last line is ended.
pub fn same_is_printed()
    ensures { SameIsPrinted }
{}
