//! What is counted of a journal.

ghost use Rattle.std.specs.Prelude.{◌≡◌, ◌+◌, ◌-◌, List, [], ◌∷◌, ◌++◌, length, slice_get, if◌then◌else◌};
ghost use Rattle.er_base.specs.declared.release.Release.{Release as AnyRelease};
ghost use Rattle.journal.specs.Tallies.{IsTallyOfEntry, release_or_none};
ghost use Rattle.journal.specs.Saying.{HasTallyRanges};
ghost use Rattle.loop_model.specs.Journals.{JournalEntry};
ghost use Rattle.counted.specs.Counting.{begins_an_end, turns_away, counts_of_releases, shown_count, AreCounts};
ghost use Rattle.counted.specs.Kept.{kept_with_release};

use crate::release_count::{ReleaseCount, has, raise};
use arrayvec::ArrayVec;
use er_base::Release;
use journal::{Began, EventTally};

/// The most releases of different reasons that are counted apart.
pub const MOST_RELEASES: usize = 64;

/// What is counted of the entries of a journal. Each count stays at its greatest value.
#[derive(Debug, Drop)]
pub struct JournalCounts {
    /// Ends that began.
    pub opened: u64,
    /// Connections that got no end.
    pub turned_away: u64,
    /// How often an end came to stand connected with its peer.
    pub connected: u64,
    /// Messages of peers that were accepted.
    pub accepted: u64,
    /// Messages that users said.
    pub said: u64,
    /// Those of them that were refused.
    pub refused: u64,
    /// Frames that stations ignored, as the tallies of the entries say.
    pub ignored: u64,
    /// The releases by reason, sub-reason and side, in the order in which these came first. Of more than 64 the first 64 stand here.
    pub releases: ArrayVec<ReleaseCount, MOST_RELEASES>,
    /// The newest release.
    pub newest: Option<Release>,
}

// How many ends an event begins.
fn ends_of(began: Began) -> u64
    ensures { result ≡ (if begins_an_end began then 1 else 0) }
{
    match began {
        Began::End => 1,
        Began::Nothing | Began::Full | Began::Unserved => 0,
    }
}

// How many connections it turns away.
fn turned_away_by(began: Began) -> u64
    ensures { result ≡ (if turns_away began then 1 else 0) }
{
    match began {
        Began::Full | Began::Unserved => 1,
        Began::Nothing | Began::End => 0,
    }
}

// What the types of a tally say.
fn has_ranges(_tally: EventTally)
    ensures { HasTallyRanges _tally }
{}

impl JournalCounts {
    /// Nothing was recorded yet.
    pub fn new() -> JournalCounts
        ensures counts { AreCounts [] result }
        ensures ignored { result.ignored ≡ 0 }
    {
        JournalCounts {
            opened: 0,
            turned_away: 0,
            connected: 0,
            accepted: 0,
            said: 0,
            refused: 0,
            ignored: 0,
            releases: ArrayVec::new(),
            newest: None,
        }
    }

    // The release of an event, where one came.
    fn add_release(&mut self, released: Option<Release>)
        ensures releases { (rs : List AnyRelease) → self.old.releases.items ≡ counts_of_releases rs
            → self.new.releases.items ≡ counts_of_releases (rs ++ release_or_none released) }
        ensures newest { (rs : List AnyRelease) → self.old.newest ≡ slice_get rs (length rs - 1)
            → self.new.newest ≡ slice_get (rs ++ release_or_none released) (length (rs ++ release_or_none released) - 1) }
        ensures only { self.new ≡ record self.old { releases = self.new.releases; newest = self.new.newest } }
    {
        let Some(release) = released else {
            return;
        };
        keep(&mut self.releases, release);
        self.newest = Some(release);
    }

    // One event more.
    pub(crate) fn add(&mut self, tally: &EventTally)
        ensures counts { (xs : List JournalEntry) (x : JournalEntry) → AreCounts xs self.old → IsTallyOfEntry x tally.now → AreCounts (xs ++ x ∷ []) self.new }
        ensures ignored { self.new.ignored ≡ shown_count (self.old.ignored + tally.now.ignored) }
        ensures ranges { HasTallyRanges tally.now }
    {
        has_ranges(*tally);
        self.opened = self.opened.saturating_add(ends_of(tally.began));
        self.turned_away = self.turned_away.saturating_add(turned_away_by(tally.began));
        self.connected = self.connected.saturating_add(tally.connected);
        self.accepted = self.accepted.saturating_add(tally.accepted);
        self.said = self.said.saturating_add(tally.said);
        self.refused = self.refused.saturating_add(tally.refused);
        self.ignored = self.ignored.saturating_add(tally.ignored);
        self.add_release(tally.released);
    }
}

// One release more, among those that are kept.
fn keep(kept: &mut ArrayVec<ReleaseCount, MOST_RELEASES>, release: Release)
    ensures { kept.new.items ≡ kept_with_release release kept.old.items }
{
    if has(kept.as_slice(), release) {
        raise(kept.as_mut_slice(), release);
        return;
    }
    if kept.len() < MOST_RELEASES {
        kept.push(ReleaseCount { release, count: 1 });
    }
}
