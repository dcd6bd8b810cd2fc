//! Why one line of a text wasn't read.

ghost use Rattle.std.specs.Prelude.{◌≡◌};
ghost use Rattle.er_base.specs.declared.line_fault.LineFault.TheVariants as fault;

use crate::no_memory::NoMemory;
use crate::why::Why;

/// Why one line of a text of this profile wasn't read.
#[derive(Clone, Copy, Debug, PartialEq, Eq)]
pub enum LineFault {
    /// It is refused.
    Refused(Why),
    /// Want of memory.
    NoMemory(NoMemory),
}

impl From<Why> for LineFault {
    ghost from_gives = { λ why e. e ≡ fault.Refused why };

    fn from(why: Why) -> LineFault {
        LineFault::Refused(why)
    }
}

impl From<NoMemory> for LineFault {
    ghost from_gives = { λ want e. e ≡ fault.NoMemory want };

    fn from(want: NoMemory) -> LineFault {
        LineFault::NoMemory(want)
    }
}
