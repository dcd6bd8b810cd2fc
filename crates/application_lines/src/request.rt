//! What an application asks for.

use er_base::Octets;

/// A line from an application.
#[derive(Debug, Drop)]
pub enum Request {
    /// `send C HEX`: a message is sent on a connection.
    Send {
        /// The number of the connection.
        connection: u64,
        /// The message, of at most 4,096 octets.
        text: Octets,
    },
    /// `release C X`: a connection is released.
    Release {
        /// The number of the connection.
        connection: u64,
        /// The sub-reason.
        sub: u8,
    },
    /// `drain`: nothing more is accepted, and all connections are released.
    Drain,
    /// `keys`: the key file is read again.
    Keys,
    /// `counts`: the counts are asked for.
    Counts,
}
