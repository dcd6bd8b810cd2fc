//! Why a call failed, for people.

use std::{fmt, io};

/// Why a listen, a dial or a turn failed.
#[derive(Clone, Copy, Debug)]
pub enum WireFault {
    /// The text is no IP address and port.
    NoAddress,
    /// The application's file name has no octet, or more than 107.
    NoFileName,
    /// A file that is no socket stands at the application's file name.
    OtherFile,
    /// As many connections are open as can be, or all numbers are used.
    Full,
    /// The system refused it.
    System(io::Error),
}

impl From<io::Error> for WireFault {
    fn from(error: io::Error) -> WireFault {
        WireFault::System(error)
    }
}

impl fmt::Display for WireFault {
    fn fmt<W: fmt::Write>(&self, f: &mut fmt::Formatter<W>) -> fmt::Result {
        match self {
            WireFault::NoAddress => f.write_str("no IP address and port"),
            WireFault::NoFileName => f.write_str("no file name of 1 to 107 octets"),
            WireFault::OtherFile => f.write_str("a file that is no socket stands there"),
            WireFault::Full => f.write_str("no further connection can be open"),
            WireFault::System(error) => error.fmt(f),
        }
    }
}
