//! Why a loop stopped.

ghost use Rattle.std.specs.Prelude.{◌≡◌};
ghost use Rattle.loop_session.specs.declared.loop_fault.LoopFault.TheVariants as fault;

use er_base::NoMemory;
use thiserror::Error;

/// Why a loop breaks off.
#[derive(Clone, Copy, Debug, PartialEq, Eq, Error)]
pub enum LoopFault {
    /// A listen, dial or turn of the wires failed.
    #[error("a listen, dial or turn of the wires failed")]
    Wires,
    /// A write to the sink failed.
    #[error("a write to the sink failed")]
    Sink,
    /// Want of memory.
    #[error("want of memory")]
    NoMemory(NoMemory),
}

impl From<NoMemory> for LoopFault {
    ghost from_gives = { λ want e. e ≡ fault.NoMemory want };

    fn from(want: NoMemory) -> LoopFault {
        LoopFault::NoMemory(want)
    }
}
