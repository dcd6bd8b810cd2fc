//! Why a relay stopped.

ghost use Rattle.std.specs.Prelude.{◌≡◌};
ghost use Rattle.relay_loop.specs.declared.fault.RelayFault.TheVariants as fault;

use er_base::NoMemory;

/// Why a relay breaks off.
#[derive(Clone, Copy, Debug, PartialEq, Eq)]
pub enum RelayFault {
    /// A listen or turn of the wires failed.
    Wires,
    /// A write to the sink failed.
    Sink,
    /// Want of memory.
    NoMemory(NoMemory),
}

impl From<NoMemory> for RelayFault {
    ghost from_gives = { λ want e. e ≡ fault.NoMemory want };

    fn from(want: NoMemory) -> RelayFault {
        RelayFault::NoMemory(want)
    }
}
