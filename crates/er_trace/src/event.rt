//! The events of a trace.

use er_base::{EtcsNumber, Octets};

/// What came at the end of a connection.
#[derive(Debug, Drop)]
pub enum Event {
    /// A calling end was made, and started.
    Call {
        /// The engine, the end's own.
        engine: EtcsNumber,
        /// The radio block centre that is called.
        rbc: EtcsNumber,
        /// The engine's random number.
        rb: u64,
    },
    /// An answering end was made.
    Answer {
        /// The radio block centre, the end's own.
        rbc: EtcsNumber,
        /// Its random number.
        ra: u64,
    },
    /// Octets came from the line, at most 4,096.
    Octets(Octets),
    /// The user sends a message, of at most 4,096 octets.
    Send(Octets),
    /// The user takes a message.
    Take,
    /// The user releases, with this sub-reason.
    Release(u8),
    /// Time went on.
    Tick,
    /// The line ended.
    Ended,
    /// The line failed.
    Fault,
    /// The line took too few of the octets that are to be written.
    Stalled,
    /// A connection wasn't opened, since so many are.
    Full(u64),
    /// A connection wasn't opened, since no user is left for it; so many there were.
    Unserved(u64),
}
