//! The entries of a key file, kept.

ghost use Rattle.std.specs.Prelude.{◌≡◌, Ok, IfOk, map, count_by};
ghost use Rattle.key_store.specs.KeyFiles.{keys_of};
ghost use Rattle.key_store.specs.Answers.{AnswersAsKeyFileSays};
ghost use Rattle.key_store.specs.Lists.{as_entry, listed_keys};
ghost use Rattle.key_store.specs.Holding.{holds_at};
ghost use Rattle.key_store.specs.Kept.{key_entry_of};

use crate::document::{listed_keys, read_document, read_version};
use crate::key_entry::KeyEntry;
use crate::key_file_fault::KeyFileFault;
use crate::key_reader::read_entries;
use crate::key_writer::key_text;
use crate::ranged_entries::RangedEntries;
use crate::twice::{first_twice, has_none_twice};
use er_base::{EtcsNumber, Moment, NoMemory};
use safety_automaton::KeyFinder;
use session_keys::Kmac;
use std::alloc::Global;
use std::marker::Model;

/// The entries of a key file, which contracts see as their list. Printed for debugging, it shows no key.
#[derive(Debug, Drop)]
pub struct KeyStore {
    entries: Vec<KeyEntry>,
}

impl Model for KeyStore {
    ghost use Rattle.std.specs.Prelude.{List, map};
    ghost use Rattle.safety_automaton.specs.Keys.{KmacEntry, AreKmacEntriesApart};
    ghost use Rattle.key_store.specs.Ranges.{AreInRange};
    ghost use Rattle.key_store.specs.Kept.{key_entry_of};

    ghost Value = { List KmacEntry };

    ghost view = { λ s. map key_entry_of s.entries.items };

    ghost invariant = { λ s. AreKmacEntriesApart (map key_entry_of s.entries.items) × AreInRange (map key_entry_of s.entries.items) };
}

// How many of these entries hold at a moment.
fn count_held(entries: &[KeyEntry], now: u64) -> usize
    ensures { result ≡ count_by (λ entry. holds_at now (key_entry_of entry)) entries.now }
{
    entries.iter().filter(|entry| entry.holds_at(now)).count()
}

impl KeyStore {
    /// The entries of a key file, whose octets these are.
    ///
    /// A file that is refused is refused by its first fault: the document, its version, its list, then entry by entry its
    /// fields in their order, at last two entries of one pair that have a moment in common.
    #[tactic(auto, unfolding(crate::specs::KeyFiles::keys_of))]
    pub fn from_bytes(alloc: Global, bytes: &[u8]) -> Result<KeyStore, KeyFileFault>
        ensures exact { AnswersAsKeyFileSays result (keys_of bytes.now) }
    {
        let document = read_document(alloc, bytes)?;
        let version = read_version(&document)?;
        let entries = read_entries(alloc, version, listed_keys(&document)?)?;
        match first_twice(alloc, &RangedEntries::new(entries.as_slice()))? {
            Some((first, second)) => Err(KeyFileFault::Twice { first, second }),
            None => Ok(KeyStore { entries }),
        }
    }

    /// The keys of a list. None exactly where a number of an entry is out of its range, or two entries of one pair have a moment in common.
    #[tactic(auto, unfolding(crate::specs::Lists::listed_keys))]
    pub fn from_entries(entries: Vec<KeyEntry>) -> Option<KeyStore>
        ensures { result ≡ listed_keys (map as_entry entries.items) }
    {
        let ranged = RangedEntries::checked(entries.as_slice())?;
        if !has_none_twice(*entries.allocator(), &ranged) {
            return None;
        }
        Some(KeyStore { entries })
    }

    /// How many entries hold at a moment.
    #[tactic(auto, using(crate::proofs::Holdings::held_by_view))]
    pub fn held_at(&self, now: u64) -> usize
        ensures { result ≡ count_by (holds_at now) self.now }
    {
        count_held(self.entries.as_slice(), now)
    }

    /// A key file of version 2 with these entries, one by one in their order.
    pub fn to_text(&self, alloc: Global) -> Result<Vec<u8>, NoMemory>
        ensures read_back { IfOk result (λ text. keys_of text.items ≡ Ok self.now) }
    {
        key_text(alloc, &RangedEntries::new(self.entries.as_slice()))
    }
}

impl KeyFinder for KeyStore {
    ghost entries = { λ entries. entries };

    fn find(&self, engine: EtcsNumber, rbc: EtcsNumber, now: Moment) -> Option<Kmac> {
        for entry in self.entries.as_slice() {
            if entry.is_of(engine, rbc, now) {
                return Some(Kmac::new(entry.kmac));
            }
        }
        None
    }
}
