//! What a loop is to do: the settings of its links, and how many turns at the most.

use er_settings::Settings;

/// What a loop is to do: the settings of its links, and how many turns at the most.
#[derive(Clone, Copy, Debug, PartialEq, Eq)]
pub struct LinePlan {
    /// The settings of each link.
    pub settings: Settings,
    /// How many turns are done, unless the loop stops before.
    pub turns: u64,
}

/// Why a loop stopped.
#[derive(Clone, Copy, Debug, PartialEq, Eq)]
pub enum LoopStop {
    /// All turns were done.
    Turns,
    /// The wires ended.
    Ended,
    /// The one connection of a dial was closed.
    Closed,
}

/// What a loop did.
#[derive(Clone, Copy, Debug, PartialEq, Eq)]
pub struct Served {
    /// The number of turns that were done.
    pub turns: u64,
    /// Why it stopped.
    pub why: LoopStop,
}
