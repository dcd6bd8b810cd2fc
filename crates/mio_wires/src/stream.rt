//! The socket of a connection.

ghost use Rattle.std.specs.Prelude.{◌≡◌, length};
ghost use Rattle.std.specs.Io.{ReadsAtMost, WritesAtMost};

use mio::net::{TcpStream, UnixStream};
use std::io;
use std::io::{Read, Write};
use std::net::{Shutdown, SocketAddr};

#[derive(Drop)]
pub enum Stream {
    // To a peer.
    Tcp(TcpStream),
    // To the application.
    Unix(UnixStream),
}

impl Stream {
    pub fn read(&self, into: &mut [u8]) -> io::Result<usize>
        ensures bound { ReadsAtMost result into.new }
        ensures length { length into.new ≡ length into.old }
    {
        match self {
            Stream::Tcp(stream) => {
                let mut stream = stream;
                stream.read(into)
            }
            Stream::Unix(stream) => {
                let mut stream = stream;
                stream.read(into)
            }
        }
    }

    pub fn write(&self, piece: &[u8]) -> io::Result<usize>
        ensures bound { WritesAtMost result piece.now }
    {
        match self {
            Stream::Tcp(stream) => {
                let mut stream = stream;
                stream.write(piece)
            }
            Stream::Unix(stream) => {
                let mut stream = stream;
                stream.write(piece)
            }
        }
    }

    // Says that no more is sent, and whether what was written has still to go out. What was written to the application lies there already, and stays where
    // the socket is closed.
    pub fn shuts(&self) -> bool {
        match self {
            Stream::Tcp(stream) => stream.shutdown(Shutdown::Write).is_ok(),
            Stream::Unix(_) => false,
        }
    }

    // The address of the peer. The application has none.
    pub fn peer(&self) -> Option<SocketAddr> {
        match self {
            Stream::Tcp(stream) => stream.peer_addr().ok(),
            Stream::Unix(_) => None,
        }
    }
}
