//! A line of a tap: a direction and the octets that went there.

use er_base::{Octets, Side};

/// What a line of a tap says. Links are numbered from 1 to 64.
#[derive(Debug, Drop)]
pub enum TapStep {
    /// A link was tapped.
    Link {
        /// The link, 1 to 64.
        link: u8,
        /// The engine's ETCS number, below 2^24.
        engine: u32,
        /// The radio block centre's ETCS number, below 2^24.
        rbc: u32,
        /// The moment in milliseconds at which its key is looked up, at most 10^15.
        moment: u64,
    },
    /// The next piece of what a side sent and the other end got.
    Octets {
        /// The link, 1 to 64.
        link: u8,
        /// The side that sent.
        side: Side,
        /// The octets, at most 4,096.
        text: Octets,
    },
}
