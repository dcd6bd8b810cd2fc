//! An entry of a key file.

ghost use Rattle.std.specs.Prelude.{◌≡◌, true};
ghost use Rattle.safety_automaton.specs.Keys.{is_of};
ghost use Rattle.key_store.specs.KeyFiles.{is_at_once};
ghost use Rattle.key_store.specs.Kept.{key_entry_of};
ghost use Rattle.key_store.specs.Ranges.{IsInRange};
ghost use Rattle.key_store.specs.Lists.{is_in_range};
ghost use Rattle.key_store.specs.Holding.{holds_at};

use des_block::TripleKey;
use er_base::{EtcsNumber, MOST_ETCS_NUMBER, MOST_MOMENT, Moment};

/// The KMAC of an engine and a radio block centre, with its first and its last moment in milliseconds.
#[derive(Clone, Copy, Debug)]
pub struct KeyEntry {
    /// The engine's ETCS number, below 2^24.
    pub engine: u32,
    /// The radio block centre's ETCS number, below 2^24.
    pub rbc: u32,
    /// The KMAC.
    pub kmac: TripleKey,
    /// The first moment at which it holds, at most 10^15.
    pub first: u64,
    /// The last one, not before the first.
    pub last: u64,
}

impl KeyEntry {
    /// Whether its numbers are in their ranges, and its first moment isn't behind its last one.
    pub fn is_in_range(&self) -> bool
        ensures value { result ≡ is_in_range (key_entry_of self.now) }
        ensures range { result ≡ true → IsInRange (key_entry_of self.now) }
    {
        // the ranges of the KMAC's numbers, which its type gives
        let _first = self.kmac.first;
        let _second = self.kmac.second;
        let _third = self.kmac.third;
        if self.engine > MOST_ETCS_NUMBER {
            return false;
        }
        if self.rbc > MOST_ETCS_NUMBER {
            return false;
        }
        if self.first > self.last {
            return false;
        }
        self.last <= MOST_MOMENT
    }

    /// Whether it is that of a pair and holds at a moment.
    pub fn is_of(&self, engine: EtcsNumber, rbc: EtcsNumber, now: Moment) -> bool
        ensures { result ≡ is_of now engine rbc (key_entry_of self.now) }
    {
        let now = now.get();
        self.engine == engine.get()
            && self.rbc == rbc.get()
            && self.first <= now
            && now <= self.last
    }

    /// Whether it holds at a moment.
    pub fn holds_at(&self, now: u64) -> bool
        ensures { result ≡ holds_at now (key_entry_of self.now) }
    {
        self.first <= now && now <= self.last
    }

    /// Whether another one is of the same pair and holds at a moment at which it holds.
    pub fn is_at_once(&self, other: &KeyEntry) -> bool
        ensures { result ≡ is_at_once (key_entry_of self.now) (key_entry_of other.now) }
    {
        self.engine == other.engine
            && self.rbc == other.rbc
            && self.first <= other.last
            && other.first <= self.last
    }
}
