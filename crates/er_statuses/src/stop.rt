//! Why a run breaks off.

ghost use Rattle.er_statuses.specs.declared.stop.Stop.TheVariants as stop;
ghost use Rattle.std.specs.Prelude.{◌≡◌};

use er_base::NoMemory;

/// Why a run breaks off.
#[derive(Clone, Copy, Debug, PartialEq, Eq)]
pub enum Stop {
    /// A write to the sink failed.
    Sink,
    /// Want of memory.
    NoMemory(NoMemory),
}

impl From<NoMemory> for Stop {
    ghost from_gives = { λ want e. e ≡ stop.NoMemory want };

    fn from(want: NoMemory) -> Stop {
        Stop::NoMemory(want)
    }
}
