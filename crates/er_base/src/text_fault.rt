//! Why a text wasn't read, and at which line.

ghost use Rattle.std.specs.Prelude.{◌≡◌};
ghost use Rattle.er_base.specs.TextFaults.{IsNoMemory};
ghost use Rattle.er_base.specs.declared.text_fault.TextFault.TheVariants as fault;

use crate::no_memory::NoMemory;
use crate::why::Why;
use std::alloc::{AllocError, AllocFailed};

/// Why a text of this profile wasn't read.
#[derive(Clone, Copy, Debug, PartialEq, Eq)]
pub enum TextFault {
    /// The text is refused.
    At {
        /// The first faulty line, from 1; 0 where it is the whole text.
        line: usize,
        /// The first fault of that line.
        why: Why,
    },
    /// Want of memory.
    NoMemory(NoMemory),
}

impl From<NoMemory> for TextFault {
    ghost from_gives = { λ want e. e ≡ fault.NoMemory want };

    fn from(want: NoMemory) -> TextFault {
        TextFault::NoMemory(want)
    }
}

impl From<AllocError> for TextFault {
    ghost from_gives = { λ _ e. IsNoMemory e };

    fn from(refused: AllocError) -> TextFault {
        TextFault::NoMemory(NoMemory::from(refused))
    }
}

impl<T: Drop> From<AllocFailed<T>> for TextFault {
    ghost from_gives = { λ _ e. IsNoMemory e };

    fn from(refused: AllocFailed<T>) -> TextFault {
        TextFault::NoMemory(NoMemory::from(refused))
    }
}
