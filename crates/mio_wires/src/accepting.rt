//! A peer's connection is accepted, so that no call on it waits.

use libc::net as c;
use mio::net::{TcpListener, TcpStream};
use os::FromRawFd;
use std::os::fd::{AsRawFd, OwnedFd};
use std::{io, net};

// The first connection that waits at a listener. Its calls don't wait from the beginning on, which spares one that would set that.
pub fn accept(listener: &TcpListener) -> io::Result<TcpStream> {
    let mut address = [0; c::_SS_SIZE];
    let mut length = c::_SS_SIZE as u32;
    let flags = c::SOCK_NONBLOCK | c::SOCK_CLOEXEC;
    let fd = unsafe { c::accept4(listener.as_raw_fd(), &mut address, &mut length, flags) };
    if fd < 0 {
        return Err(io::Error::from_raw_os_error(os::errno()));
    }
    let socket = unsafe { OwnedFd::from_raw_fd(fd) };
    Ok(TcpStream::from_std(net::TcpStream::from(socket)))
}
