//! What each socket of a connection is set to.

use libc::net as c;
use std::os::fd::AsRawFd;

// A peer that is silent so many seconds is asked whether it is there, then again each so many seconds, and where it
// doesn't answer so many times, the connection has failed.
const IDLE: i32 = 30;

const BETWEEN: i32 = 10;

const TIMES: i32 = 3;

// The octets that the system keeps for a peer that doesn't read, and those that came and weren't read. It takes twice as much for each, what
// it notes beside the octets among it.
const ROOM: i32 = 65_536;

/// Sets a socket for frames.
///
/// Small pieces are sent at once, a peer that is gone without a word is noticed within a minute, and the system keeps 65,536 octets each way
/// at the most. What can't be set stays as it is: the connection works without it. A connection that is accepted is set as its listener is
/// then, by the system.
pub fn set_for_frames<S: AsRawFd>(socket: &S) {
    let fd = socket.as_raw_fd();
    let on = octets_of(1);
    let idle = octets_of(IDLE);
    let between = octets_of(BETWEEN);
    let times = octets_of(TIMES);
    let room = octets_of(ROOM);
    let _at_once = unsafe { c::setsockopt(fd, c::IPPROTO_TCP, c::TCP_NODELAY, &on, 4) };
    let _kept = unsafe { c::setsockopt(fd, c::SOL_SOCKET, c::SO_KEEPALIVE, &on, 4) };
    let _idle = unsafe { c::setsockopt(fd, c::IPPROTO_TCP, c::TCP_KEEPIDLE, &idle, 4) };
    let _between = unsafe { c::setsockopt(fd, c::IPPROTO_TCP, c::TCP_KEEPINTVL, &between, 4) };
    let _times = unsafe { c::setsockopt(fd, c::IPPROTO_TCP, c::TCP_KEEPCNT, &times, 4) };
    let _sent = unsafe { c::setsockopt(fd, c::SOL_SOCKET, c::SO_SNDBUF, &room, 4) };
    let _came = unsafe { c::setsockopt(fd, c::SOL_SOCKET, c::SO_RCVBUF, &room, 4) };
}

// A number as an option's value, which stands in its first four octets.
fn octets_of(number: i32) -> [u8; 16] {
    let mut value = [0; 16];
    value[..4].copy_from_slice(&number.to_ne_bytes());
    value
}
