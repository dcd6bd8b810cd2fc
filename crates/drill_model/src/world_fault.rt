//! Why a step of a world isn't done.

use er_base::{NoMemory, Side};

/// Why a step of a world isn't done.
#[derive(Clone, Copy, Debug, PartialEq, Eq)]
pub enum WorldFault {
    /// A frame would be one more than may wait in one direction. The world is spent.
    Overfull {
        /// The link.
        link: u8,
        /// The end that sent the frames.
        side: Side,
        /// The most frames that may wait.
        most: usize,
    },
    /// The link wasn't opened.
    NoLink(u8),
    /// The link was opened before.
    LinkTwice(u8),
    /// The moment of a tick is below the world's.
    MomentBack {
        /// The world's moment, in milliseconds.
        was: u64,
        /// The moment of the tick.
        now: u64,
    },
    /// Want of memory. The world is spent.
    NoMemory(NoMemory),
}

impl From<NoMemory> for WorldFault {
    ghost use Rattle.std.specs.Prelude.{◌≡◌};
    ghost use Rattle.drill_model.specs.declared.world_fault.WorldFault.TheVariants as faults;

    ghost from_gives = { λ want e. e ≡ faults.NoMemory want };

    fn from(want: NoMemory) -> WorldFault {
        WorldFault::NoMemory(want)
    }
}
