//! What holds of the counts of a journal, in words of its own: laws on its entries.

ghost use Rattle.std.specs.Prelude.{◌≡◌, List, ◌++◌, length, take, min};
ghost use Rattle.er_base.specs.declared.release.Release.{Release};
ghost use Rattle.loop_model.specs.Journals.{JournalEntry};
ghost use Rattle.journal.specs.declared.event_tally.EventTally.{EventTally};
ghost use Rattle.journal.specs.Tallies.{IsTallyOfEntry};
ghost use Rattle.outside.specs.Acts.{Act};
ghost use Rattle.counted.specs.Counting.{times_released, different_releases, IsCountOf, CountTheSame};
ghost use Rattle.counted.specs.declared.counts.JournalCounts.{JournalCounts};
ghost use Rattle.counted.specs.Rising.{RiseByTally};

/// The tally of an entry is what the counts rise by with it. They wouldn't where a refused message counted as accepted.
pub fn rise_by_the_tally()
    ensures { (xs : List JournalEntry) (x : JournalEntry) (t : EventTally) → IsTallyOfEntry x t → RiseByTally xs x t }
{}

/// What was recorded decides the counts: whoever counts it as the lines of other entries counts alike. So it were not if a count told what no line tells.
pub fn are_decided_by_the_lines()
    ensures { (recorded : List Act) (c d : JournalCounts) → IsCountOf recorded c → IsCountOf recorded d → CountTheSame c d }
{
    journal::laws::lines_say_counts();
}

/// A release that came, however often, has one place among the different ones, and one that didn't come has none. It would have two where a place
/// were looked for by the reason alone.
pub fn have_one_place()
    ensures { (release : Release) (releases : List Release) → times_released release (different_releases releases) ≡ min (times_released release releases) 1 }
{}

/// The different releases keep their places whatever comes behind them. They wouldn't where the newest, or the most frequent, came first.
pub fn keep_their_places()
    ensures { (releases more : List Release)
        → different_releases releases ≡ take (length (different_releases releases)) (different_releases (releases ++ more)) }
{}
