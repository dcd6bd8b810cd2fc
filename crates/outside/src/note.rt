//! An act as the code notes it.

use link_trait::{Conn, Failed, FetchFault, Happening, ReadAnswer, WriteAnswer};

/// An act with its answer, by references to what the call took and gave.
#[derive(Clone, Copy, Drop)]
pub enum Note<'a> {
    /// A file was asked for by its name.
    Fetched(&'a str, &'a Result<Vec<u8>, FetchFault>),
    /// A piece was written, wholly or not.
    Wrote(&'a [u8], &'a Result<(), Failed>),
    /// The wires were to listen at an address.
    Listened(&'a str, &'a Result<(), Failed>),
    /// An address was dialled.
    Dialled(&'a str, &'a Result<Conn, Failed>),
    /// A turn brought this.
    Turned(Option<u64>, Happening),
    /// A read, with the slice as it is behind it.
    Read(Conn, &'a [u8], ReadAnswer),
    /// A piece was written to a connection.
    Sent(Conn, &'a [u8], WriteAnswer),
    /// A connection was closed.
    Closed(Conn),
    /// The clock answered this moment.
    Asked(u64),
    /// This random word was drawn.
    Drew(u64),
}
