//! The commands that need no wires.

use crate::message_count::MessageCount;
use crate::work::Work;

/// A command that needs no wires, as the words of the program spell it.
#[derive(Clone, Copy)]
pub enum FileCommand<'a> {
    /// A command over one file, or over none.
    Plain(PlainCommand<'a>),
    /// A command over a key file and another file.
    Keyed(KeyedCommand<'a>),
}

/// A command over one file, or over none.
#[derive(Clone, Copy)]
pub enum PlainCommand<'a> {
    /// The words fit no command.
    Misused,
    /// `drill SCENARIO`.
    Drill {
        /// The name of the file.
        name: &'a str,
    },
    /// `bits FILE`.
    Bits {
        /// The name of the file.
        name: &'a str,
    },
    /// `migrate KEYS`.
    Migrate {
        /// The name of the key file.
        keys: &'a str,
    },
    /// `bulk SEED COUNT`.
    Bulk {
        /// The seed of what is drawn.
        seed: u64,
        /// The number of messages.
        count: MessageCount,
    },
}

/// A command over a key file and another file: `replay KEYS TRACE`, `check KEYS TRACE`, `audit KEYS TAP` or `audit KEYS TAP ends`.
#[derive(Clone, Copy)]
pub struct KeyedCommand<'a> {
    /// What is done with the other file.
    pub work: Work,
    /// The name of the key file.
    pub keys: &'a str,
    /// The name of the other file.
    pub name: &'a str,
}
