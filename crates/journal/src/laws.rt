//! What the definitions of this crate imply, as facts that a caller can cite. The function does nothing; its contract is the law.

ghost use Rattle.journal.specs.Saying.{LinesSayCounts};

/// The lines of an event say what it counts: whoever hands over the same lines hands over the same counts, whatever event is meant by them.
pub fn lines_say_counts()
    ensures { LinesSayCounts }
{
    er_base::laws::printed_words();
}
