//! The steps of a scenario.

use des_block::TripleKey;
use er_base::{EtcsNumber, Moment, Octets, Side};

/// A step of a drill. Links are numbered from 1 to 64.
#[derive(Drop)]
pub enum Step {
    /// Opens a link between two ends that are connected already.
    Fixed {
        /// The link, 1 to 64.
        link: u8,
        /// The engine.
        engine: EtcsNumber,
        /// The radio block centre.
        rbc: EtcsNumber,
        /// The engine's session keys.
        ke: TripleKey,
        /// The radio block centre's session keys.
        kr: TripleKey,
    },
    /// Opens a link between two ends that aren't connected yet.
    Link {
        /// The link, 1 to 64.
        link: u8,
        /// The engine.
        engine: EtcsNumber,
        /// The radio block centre.
        rbc: EtcsNumber,
        /// The engine's KMAC.
        ke: TripleKey,
        /// The radio block centre's KMAC for this engine, or None where it has none.
        kr: Option<TripleKey>,
        /// The radio block centre's random number.
        ra: u64,
        /// The engine's random number.
        rb: u64,
    },
    /// Opens a link between two stations; the calling one starts at once.
    Wire {
        /// The link, 1 to 64.
        link: u8,
    },
    /// The user at a side sends octets.
    Send {
        /// The link, 1 to 64.
        link: u8,
        /// The side whose user sends.
        side: Side,
        /// The user octets, at most 4,096.
        text: Octets,
    },
    /// The first waiting frame that a side sent is given to the other end.
    Pass {
        /// The link, 1 to 64.
        link: u8,
        /// The side that sent the frame.
        side: Side,
    },
    /// The first waiting frame of a side is removed.
    Lose {
        /// The link, 1 to 64.
        link: u8,
        /// The side that sent the frame.
        side: Side,
    },
    /// A copy of the first waiting frame of a side is put right behind it.
    Repeat {
        /// The link, 1 to 64.
        link: u8,
        /// The side that sent the frame.
        side: Side,
    },
    /// An octet of the first waiting frame of a side is changed by exclusive or.
    Alter {
        /// The link, 1 to 64.
        link: u8,
        /// The side that sent the frame.
        side: Side,
        /// The octet's place, from 0.
        place: u64,
        /// What the octet is joined with by exclusive or, 1 to 255.
        mask: u8,
    },
    /// Octets become the first waiting frame of a side.
    Put {
        /// The link, 1 to 64.
        link: u8,
        /// The side that seems to have sent the frame.
        side: Side,
        /// The frame's octets, at most 4,096.
        text: Octets,
    },
    /// A copy of the first waiting frame of a side becomes the first waiting frame of a side of any link.
    Copy {
        /// The link of the frame, 1 to 64.
        link: u8,
        /// The side that sent the frame.
        side: Side,
        /// The link on which the copy is put, 1 to 64.
        to_link: u8,
        /// The side that seems to have sent the copy.
        to_side: Side,
    },
    /// The user at a side takes a message.
    Take {
        /// The link, 1 to 64.
        link: u8,
        /// The side whose user takes.
        side: Side,
    },
    /// The user at a side releases the connection.
    Release {
        /// The link, 1 to 64.
        link: u8,
        /// The side whose user releases.
        side: Side,
        /// The sub-reason beside the reason 0.
        sub: u8,
    },
    /// The moment is set, and every end is told of it.
    Tick {
        /// The moment.
        moment: Moment,
    },
    /// Waiting frames are passed until none is left or as many as named were passed.
    Drain {
        /// The link, 1 to 64.
        link: u8,
        /// The most passes, 1 to 100,000.
        most: u32,
    },
}
