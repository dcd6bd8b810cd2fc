//! Entries whose numbers are in their ranges.

ghost use Rattle.std.specs.Prelude.{◌≡◌, ◌≤◌, true, false, length, map, take, MatchOption};
ghost use Rattle.key_store.specs.Kept.{key_entry_of};
ghost use Rattle.key_store.specs.Lists.{are_in_range};
ghost use Rattle.key_store.specs.Ranges.{AreInRange};

use crate::key_entry::KeyEntry;
use crate::key_reader::are_in_range;
use std::marker::Model;

/// Entries, each of whose numbers is in its range. In contracts they are their list.
#[derive(Drop)]
pub struct RangedEntries<'e> {
    list: &'e [KeyEntry],
}

impl<'e> Model for RangedEntries<'e> {
    ghost use Rattle.std.specs.Prelude.{List, map};
    ghost use Rattle.key_store.specs.declared.key_entry.KeyEntry.{KeyEntry};
    ghost use Rattle.key_store.specs.Kept.{key_entry_of};
    ghost use Rattle.key_store.specs.Ranges.{AreInRange};

    ghost Value = { List KeyEntry };

    ghost view = { λ e. e.list.now };

    ghost invariant = { λ e. AreInRange (map key_entry_of e.list.now) };
}

impl<'e> RangedEntries<'e> {
    /// These entries, which are in range.
    pub fn new(list: &'e [KeyEntry]) -> RangedEntries<'e>
        requires { AreInRange (map key_entry_of list.now) }
        ensures { result ≡ list.now }
    {
        RangedEntries { list }
    }

    /// These entries. None exactly where a number of one is out of its range.
    pub fn checked(list: &'e [KeyEntry]) -> Option<RangedEntries<'e>>
        ensures { MatchOption result (are_in_range (map key_entry_of list.now) ≡ false) (λ entries. (entries ≡ list.now) × (are_in_range (map key_entry_of list.now) ≡ true) × AreInRange (map key_entry_of list.now)) }
    {
        if !are_in_range(list) {
            return None;
        }
        Some(RangedEntries { list })
    }

    /// Their list.
    pub fn list(&self) -> &'e [KeyEntry]
        ensures list { result.now ≡ self.now }
        ensures range { AreInRange (map key_entry_of self.now) }
    {
        self.list
    }

    /// How many they are.
    pub fn count(&self) -> usize
        ensures { result ≡ length self.now }
    {
        self.list.len()
    }

    /// The first so many of them.
    pub fn first(&self, count: usize) -> RangedEntries<'e>
        requires { count ≤ length self.now }
        ensures { result ≡ take count self.now }
    {
        RangedEntries {
            list: &self.list[..count],
        }
    }
}
