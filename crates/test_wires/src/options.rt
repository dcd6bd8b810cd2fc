//! What each socket of a connection is set to.

ghost use Rattle.libc.specs.Net.{SockOption};

use crate::peers::listener;
use libc::net as c;
use mio_wires::set_for_frames;
use std::net;
use std::os::fd::AsRawFd;
use std::test::Fail;

// Whether an option has this value, which stands in its first four octets.
fn is_set<S: AsRawFd>(socket: &S, level: i32, option: i32, number: i32) -> bool
    requires { SockOption level option }
{
    let mut expected = [0; 16];
    expected[..4].copy_from_slice(&number.to_ne_bytes());
    let mut value = [0; 16];
    let mut size = 4;
    let fd = socket.as_raw_fd();
    let status = unsafe { c::getsockopt(fd, level, option, &mut value, &mut size) };
    status == 0 && value == expected
}

// Whether small pieces are sent at once, a peer that is silent for 30 seconds is asked three times in 10 seconds each, and the system keeps
// 65,536 octets each way, for which Linux takes twice as much.
fn is_set_for_frames<S: AsRawFd>(socket: &S) -> bool {
    is_set(socket, c::IPPROTO_TCP, c::TCP_NODELAY, 1)
        && is_set(socket, c::SOL_SOCKET, c::SO_KEEPALIVE, 1)
        && is_set(socket, c::IPPROTO_TCP, c::TCP_KEEPIDLE, 30)
        && is_set(socket, c::IPPROTO_TCP, c::TCP_KEEPINTVL, 10)
        && is_set(socket, c::IPPROTO_TCP, c::TCP_KEEPCNT, 3)
        && is_set(socket, c::SOL_SOCKET, c::SO_SNDBUF, 131_072)
        && is_set(socket, c::SOL_SOCKET, c::SO_RCVBUF, 131_072)
}

// Whether what a listener accepts is set as it is, and its peer isn't.
fn is_set_as_its_listener(rt: HostRuntime, listener: &net::TcpListener) -> Result<bool, Fail> {
    set_for_frames(listener);
    let peer = net::TcpStream::connect(&rt, listener.local_addr()?)?;
    let (accepted, _) = listener.accept()?;
    Ok(is_set_for_frames(&accepted) && !is_set_for_frames(&peer))
}

#[test]
fn an_accepted_connection_is_set_as_its_listener(rt: HostRuntime) -> Result<(), Fail> {
    assert!(rt; is_set_as_its_listener(rt, &listener(rt)?)?);
    Ok(())
}
