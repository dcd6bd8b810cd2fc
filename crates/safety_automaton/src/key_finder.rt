//! Where a side finds the KMAC of a pair of ETCS numbers.

ghost use Rattle.std.specs.Prelude.{List, ◌≡◌};
ghost use Rattle.safety_automaton.specs.Keys.{KmacEntry, key_at, AreKmacEntriesApart};
ghost use Rattle.safety_automaton.specs.Pairs.{entries_if};

use er_base::{EtcsNumber, Moment};
use session_keys::Kmac;

/// Where a side of a safe connection finds the KMAC of a pair of ETCS numbers (UNISIG SUBSET-037).
pub trait KeyFinder {
    // the keys, each with its pair and its moments; no two of one pair have a moment in common
    ghost entries: { Self → List KmacEntry };

    /// The KMAC of an engine and a radio block centre that holds at the moment `now`. None where there is none.
    fn find(&self, engine: EtcsNumber, rbc: EtcsNumber, now: Moment) -> Option<Kmac>
        ensures found { result ≡ key_at (entries self.now) now engine rbc }
        ensures distinct { AreKmacEntriesApart (entries self.now) };
}

/// A finder that may be none: then no key is found.
impl<F: KeyFinder> KeyFinder for Option<F> {
    ghost entries = { λ finder. entries_if F.entries finder };

    fn find(&self, engine: EtcsNumber, rbc: EtcsNumber, now: Moment) -> Option<Kmac> {
        match self {
            Some(finder) => finder.find(engine, rbc, now),
            None => None,
        }
    }
}
