//! The events of a trace, kept.

ghost use Rattle.std.specs.Prelude.{◌≡◌};

use crate::entry::Entry;
use std::marker::Model;

/// Events in their order, which contracts see as the list itself.
#[derive(Debug, Drop)]
pub struct EntryList {
    list: Vec<Entry>,
}

impl Model for EntryList {
    ghost use Rattle.std.specs.Prelude.{List};
    ghost use Rattle.er_trace.specs.declared.entry.Entry.{Entry};

    ghost Value = { List Entry };

    ghost view = { λ s. s.list.items };
}

impl EntryList {
    /// Keeps the list.
    pub fn new(list: Vec<Entry>) -> EntryList
        ensures { result ≡ list.items }
    {
        EntryList { list }
    }

    /// Lends the list.
    pub fn as_slice(&self) -> &[Entry]
        ensures { result.now ≡ self.now }
    {
        self.list.as_slice()
    }
}
