//! What a line of a script changes at a unit.

use er_base::Octets;

/// What a line of a script does to what is given for a unit.
#[derive(Debug, Drop)]
pub enum Change {
    /// `lose`: a flag in the place of all given so far.
    Lose,
    /// `repeat`: what is given so far, and the unit as it came.
    Repeat,
    /// `alter`: an octet of what is given so far is changed by exclusive or; nothing where there is none at that place.
    Alter {
        /// The octet's place, 1 to 10^9.
        place: u32,
        /// What the octet is joined with by exclusive or, 1 to 255.
        mask: u8,
    },
    /// `put`: octets before what is given so far.
    Put {
        /// The octets, at most 4,096.
        text: Octets,
    },
    /// `delay`: the same, later.
    Delay {
        /// How many milliseconds later, at most 10^9.
        milliseconds: u32,
    },
    /// `close`: the same, and nothing behind it.
    Close,
}
