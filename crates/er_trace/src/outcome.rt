//! The outcomes of a trace.

use er_base::Release;

/// What came of an event at the end of a connection.
#[derive(Clone, Copy, Debug)]
pub enum Outcome<'a> {
    /// The safe connection to this ETCS number is made.
    Connected(u32),
    /// A message of the peer was accepted.
    Accepted(&'a [u8]),
    /// The user took this message.
    Taken(&'a [u8]),
    /// There was no message to take.
    Empty,
    /// The message wasn't sent, since the end is released.
    RefusedReleased(Release),
    /// It wasn't sent, since the safe connection isn't made.
    RefusedNotConnected,
    /// It wasn't sent, since it has this length.
    RefusedLength(usize),
    /// It wasn't sent, since so many messages wait.
    RefusedFull(usize),
    /// The end was released.
    Released(Release),
    /// These octets are to be written to the line.
    Octets(&'a [u8]),
}
