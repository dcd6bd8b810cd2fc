//! Why a key file wasn't read.

ghost use Rattle.std.specs.Prelude.{◌≡◌};
ghost use Rattle.key_store.specs.declared.key_file_fault.KeyFileFault.TheVariants as fault;

use crate::field_name::FieldName;
use er_base::NoMemory;
use thiserror::Error;

/// Why a key file wasn't read. Entries are counted from 1; the document itself is entry 0.
#[derive(Clone, Copy, Debug, PartialEq, Eq, Error)]
pub enum KeyFileFault {
    /// The octets are no TOML document.
    #[error("the key file is no TOML document")]
    Document,
    /// A field is missing or of another type.
    #[error("the field {name:?} of entry {entry} is missing or of another type")]
    Field {
        /// The entry.
        entry: usize,
        /// The field.
        name: FieldName,
    },
    /// The KMAC of an entry isn't 48 hexadecimal digits.
    #[error("the KMAC of entry {entry} is not 48 hexadecimal digits")]
    Hex {
        /// The entry.
        entry: usize,
    },
    /// A number of an entry is out of its range.
    #[error("a number of entry {entry} is out of its range")]
    Number {
        /// The entry.
        entry: usize,
    },
    /// The first moment of an entry is behind its last one.
    #[error("the first moment of entry {entry} is behind its last one")]
    Range {
        /// The entry.
        entry: usize,
    },
    /// Two entries of one pair have a moment in common.
    #[error("the entries {first} and {second} are of one pair and have a moment in common")]
    Twice {
        /// The first such entry before the second.
        first: usize,
        /// The first entry that has such an entry before it.
        second: usize,
    },
    /// The version is neither 1 nor 2.
    #[error("the version {0} of the key file is unknown")]
    Version(i64),
    /// Want of memory.
    #[error("memory ran out")]
    NoMemory(NoMemory),
}

impl From<NoMemory> for KeyFileFault {
    ghost from_gives = { λ want e. e ≡ fault.NoMemory want };

    fn from(want: NoMemory) -> KeyFileFault {
        KeyFileFault::NoMemory(want)
    }
}
