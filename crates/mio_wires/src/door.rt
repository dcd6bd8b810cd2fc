//! Where the application of a loop comes: a listener of the Unix domain at a file name.

use crate::faults::WireFault;
use mio::net::{UnixListener, UnixStream};
use std::fs::{Files, Metadata, remove_file, symlink_metadata};
use std::io;
use std::io::ErrorKind;
use std::net::Net;
use std::os::fd::{AsFd, AsRawFd};
use std::os::unix::fs::{FileTypeExt, MetadataExt};
use std::os::unix::net;
use std::os::unix::net::SocketAddr;

// The most octets of a file name that an address of a socket has room for.
const MOST_NAME: usize = 107;

// Its owner alone may come.
const MODE: u32 = 0o600;

// As many may wait to be accepted as the system allows.
const BACKLOG: i32 = -1;

// Which file it is. As long as the socket that made it is open, no other one has its number.
#[derive(Clone, Copy, PartialEq, Eq)]
struct FileId {
    device: u64,
    number: u64,
}

// A listener, and which file it made.
#[derive(Drop)]
pub struct Door {
    pub listener: UnixListener,
    file: FileId,
}

impl Door {
    // Listens at a file name. Of what stands there a socket that nobody listens at is replaced, and nothing else.
    //
    // Two that begin at the same moment may both find nobody listening: the later one has the name then.
    pub fn open<R: Net + Files>(rt: &R, name: &str) -> Result<Door, WireFault> {
        if name.is_empty() || name.len() > MOST_NAME {
            return Err(WireFault::NoFileName);
        }
        let address = SocketAddr::from_pathname(name)?;
        match listens(rt, name, &address) {
            Err(taken) if taken.kind() == ErrorKind::AddrInUse => {
                make_way(rt, name, &address, taken)?;
                Ok(listens(rt, name, &address)?)
            }
            answer => Ok(answer?),
        }
    }

    // The application that waits first. Its calls don't wait.
    pub fn accept(&self) -> io::Result<UnixStream> {
        Ok(self.listener.accept()?.0)
    }

    // Removes the file, where it is still the one that was made.
    pub fn remove<R: Files>(&self, rt: &R) {
        let Ok(address) = self.listener.local_addr() else {
            return;
        };
        let Some(name) = address.as_pathname() else {
            return;
        };
        if symlink_metadata(rt, name).is_ok_and(|found| id_of(&found) == self.file) {
            let _removed = remove_file(rt, name);
        }
    }
}

// Listens where nothing stands yet.
//
// The socket has its mode before it has a name, and Linux makes the file with the socket's mode, less what the umask takes. So from the file's first moment on
// nobody but its owner may come, whatever the umask is.
fn listens<R: Net + Files>(rt: &R, name: &str, address: &SocketAddr) -> io::Result<Door> {
    let socket = rt.unix_socket()?;
    if libc::fchmod(socket.as_raw_fd(), MODE) < 0 {
        return Err(last_error());
    }
    rt.bind_unix(socket.as_fd(), address)?;
    let file = id_of(&symlink_metadata(rt, name)?);
    if libc::net::listen(socket.as_raw_fd(), BACKLOG) < 0 {
        return Err(last_error());
    }
    let listener = net::UnixListener::from(socket);
    listener.set_nonblocking(true)?;
    Ok(Door {
        listener: UnixListener::from_std(listener),
        file,
    })
}

// Removes a socket that nobody listens at. Where somebody does, the name is taken. Any other file stays.
fn make_way<R: Net + Files>(
    rt: &R,
    name: &str,
    address: &SocketAddr,
    taken: io::Error,
) -> Result<(), WireFault> {
    if !symlink_metadata(rt, name)?.file_type().is_socket() {
        return Err(WireFault::OtherFile);
    }
    match UnixStream::connect_addr(rt, address) {
        Err(error) if error.kind() == ErrorKind::ConnectionRefused => {}
        Err(error) if error.kind() != ErrorKind::WouldBlock => return Err(error.into()),
        _ => return Err(taken.into()),
    }
    Ok(remove_file(rt, name)?)
}

fn id_of(found: &Metadata) -> FileId {
    FileId {
        device: found.dev(),
        number: found.ino(),
    }
}

// Why the call of the system that was made last failed.
fn last_error() -> io::Error {
    io::Error::from_raw_os_error(os::errno())
}
