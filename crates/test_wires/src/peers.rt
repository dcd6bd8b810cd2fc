//! The peers of the wires that are tested.

ghost use Rattle.std.specs.Prelude.{◌<◌, length};

use link_trait::{Conn, Failed, Happening, ReadAnswer, Wires, WriteAnswer};
use mio_wires::{MOST_CONNECTIONS, MioWires};
use std::io::{Read, Write};
use std::net::{Ipv4Addr, SocketAddr};
use std::rt::Clock;
use std::test::Fail;
use std::{io, net};

// A hundred milliseconds from now.
pub fn soon(rt: HostRuntime) -> io::Result<u64> {
    let now = u64::try_from(rt.since_1970()?.as_millis()).unwrap_or(0);
    Ok(now.saturating_add(100))
}

// A listener at a port of this machine that nobody had.
pub fn listener(rt: HostRuntime) -> io::Result<net::TcpListener> {
    net::TcpListener::bind(&rt, SocketAddr::from((Ipv4Addr::LOCALHOST, 0)))
}

// The address of a listener, as text.
pub fn address_of(rt: HostRuntime, listener: &net::TcpListener) -> Result<String, Fail> {
    let address = listener.local_addr()?;
    Ok(format!(in rt.alloc(); "{address}")?)
}

// An address of this machine at which nobody listens.
fn free_address(rt: HostRuntime) -> Result<String, Fail> {
    address_of(rt, &listener(rt)?)
}

// The first connection that is accepted in a hundred turns.
pub fn accepted<W: Wires>(rt: HostRuntime, wires: &mut W) -> io::Result<Option<Conn>> {
    for _ in 0..100 {
        if let Happening::Accepted(conn) = wires.turn(Some(soon(rt)?)) {
            return Ok(Some(conn));
        }
    }
    Ok(None)
}

// What the first read that isn't put off gives, in a hundred turns, each read behind its happening.
pub fn read_soon<W: Wires>(
    rt: HostRuntime,
    wires: &mut W,
    conn: Conn,
    into: &mut [u8],
) -> io::Result<ReadAnswer>
    requires { 0 < length into.old }
{
    for _ in 0..100 {
        if wires.turn(Some(soon(rt)?)) != Happening::Readable(conn) {
            continue;
        }
        match wires.read(conn, into) {
            ReadAnswer::NotNow => {}
            answer => return Ok(answer),
        }
    }
    Ok(ReadAnswer::NotNow)
}

// What the first write that isn't put off does, in a hundred turns, each write behind its happening.
pub fn write_soon<W: Wires>(
    rt: HostRuntime,
    wires: &mut W,
    conn: Conn,
    piece: &[u8],
) -> io::Result<WriteAnswer>
    requires { 0 < length piece.now }
{
    for _ in 0..100 {
        if wires.turn(Some(soon(rt)?)) != Happening::Writable(conn) {
            continue;
        }
        match wires.write(conn, piece) {
            WriteAnswer::NotNow => {}
            answer => return Ok(answer),
        }
    }
    Ok(WriteAnswer::NotNow)
}

// Six octets go each way.
fn exchanges<W: Wires>(
    rt: HostRuntime,
    wires: &mut W,
    peer: &mut net::TcpStream,
) -> io::Result<bool> {
    let mut read = [0; 10];
    let mut answer = [0; 6];
    peer.write_all(b"octets")?;
    let came = read_soon(rt, wires, Conn(1), &mut read)?;
    let given = wires.write(Conn(1), b"answer");
    peer.read_exact(&mut answer)?;
    Ok(
        came == ReadAnswer::Some(6)
            && read.starts_with(b"octets")
            && given == WriteAnswer::Some(6)
            && &answer == b"answer",
    )
}

// The peer's close is read, and behind the own close nothing happens and nothing is done.
fn ends<W: Wires>(rt: HostRuntime, wires: &mut W) -> io::Result<bool> {
    let mut read = [0; 10];
    let came = read_soon(rt, wires, Conn(1), &mut read)?;
    wires.close(Conn(1));
    let is_closed = wires.read(Conn(1), &mut read) == ReadAnswer::Failed
        && wires.write(Conn(1), b"late") == WriteAnswer::Failed;
    Ok(came == ReadAnswer::End && is_closed && wires.turn(Some(soon(rt)?)) == Happening::Quiet)
}

// A peer comes, and goes behind six octets each way.
fn serves_a_peer<W: Wires>(rt: HostRuntime, wires: &mut W, address: &str) -> io::Result<bool> {
    if wires.listen(address).is_err() {
        return Ok(false);
    }
    let mut peer = net::TcpStream::connect(&rt, address)?;
    let is_accepted = accepted(rt, wires)? == Some(Conn(1));
    let exchanged = exchanges(rt, wires, &mut peer)?;
    drop(peer);
    Ok(is_accepted && exchanged && ends(rt, wires)?)
}

// A peer is called, and gets six octets.
fn calls_a_peer<W: Wires>(
    rt: HostRuntime,
    wires: &mut W,
    listener: &net::TcpListener,
    address: &str,
) -> io::Result<bool> {
    let mut read = [0; 6];
    let is_dialled = wires.dial(address) == Ok(Conn(1));
    let written = write_soon(rt, wires, Conn(1), b"octets")?;
    listener.accept()?.0.read_exact(&mut read)?;
    Ok(is_dialled && written == WriteAnswer::Some(6) && &read == b"octets")
}

// Whether a dial that is refused, at once or later, is told as a failure.
fn is_refused<W: Wires>(rt: HostRuntime, wires: &mut W, address: &str) -> io::Result<bool> {
    let mut read = [0; 6];
    match wires.dial(address) {
        Ok(conn) => Ok(read_soon(rt, wires, conn, &mut read)? == ReadAnswer::Failed),
        Err(Failed) => Ok(true),
    }
}

// Whether nothing is listened at, an address that is taken, texts that are none and where an application would come, and no name is dialled.
fn listens_nowhere<W: Wires>(wires: &mut W, taken: &str) -> bool {
    for address in [
        taken,
        "",
        "localhost:4711",
        "127.0.0.1",
        "127.0.0.1:65536",
        "unix:here",
    ] {
        if wires.listen(address).is_ok() {
            return false;
        }
    }
    wires.dial("localhost:4711").is_err()
}

// Peers come until one waits, and that one is accepted behind a close.
fn holds_one_back<W: Wires>(
    rt: HostRuntime,
    wires: &mut W,
    address: &str,
    peers: &mut Vec<net::TcpStream>,
) -> Result<bool, Fail> {
    if wires.listen(address).is_err() {
        return Ok(false);
    }
    for number in 1..=MOST_CONNECTIONS as u64 {
        peers.push(net::TcpStream::connect(&rt, address)?)?;
        if accepted(rt, wires)? != Some(Conn(number)) {
            return Ok(false);
        }
    }
    peers.push(net::TcpStream::connect(&rt, address)?)?;
    for _ in 0..10 {
        if matches!(wires.turn(Some(soon(rt)?)), Happening::Accepted(_)) {
            return Ok(false);
        }
    }
    wires.close(Conn(9));
    Ok(accepted(rt, wires)? == Some(Conn(MOST_CONNECTIONS as u64 + 1)))
}

// What the newest fault says.
pub fn told(rt: HostRuntime, wires: &MioWires<HostRuntime>) -> Result<String, Fail> {
    match wires.fault() {
        Some(fault) => Ok(format!(in rt.alloc(); "{fault}")?),
        None => Ok(String::new(rt.alloc())),
    }
}

// Whether people are told where it listens, and why it doesn't.
fn tells_people(
    rt: HostRuntime,
    wires: &mut MioWires<HostRuntime>,
    taken: &str,
) -> Result<bool, Fail> {
    let is_silent = wires.fault().is_none() && wires.address().is_none();
    let is_taken = wires.listen(taken).is_err()
        && told(rt, wires)?.as_str() == "Address already in use (os error 98)";
    let is_no_address = wires.dial("nowhere").is_err()
        && told(rt, wires)?.as_str() == "no IP address and port";
    let is_listening = wires.listen("127.0.0.1:0").is_ok()
        && wires.address().is_some_and(|address| address.port() > 0);
    Ok(is_silent && is_taken && is_no_address && is_listening)
}

// Whether a turn waits by the time that goes by, from the moment on that it was told.
fn waits(rt: HostRuntime, wires: &mut MioWires<HostRuntime>) -> io::Result<bool> {
    wires.keep_time(5_000);
    let begun = rt.monotonic()?;
    let is_quiet = wires.turn(Some(5_060)) == Happening::Quiet;
    let took = rt.monotonic()?.saturating_sub(begun).as_millis();
    wires.finish(10);
    Ok(is_quiet && (60..200).contains(&took))
}

// Whether the peer at this address is accepted within so many turns, in which connection 1 never stops being readable.
fn is_accepted_beside<W: Wires>(
    rt: HostRuntime,
    wires: &mut W,
    address: &str,
    turns: u32,
) -> io::Result<bool> {
    let _peer = net::TcpStream::connect(&rt, address)?;
    for _ in 0..turns {
        match wires.turn(Some(soon(rt)?)) {
            Happening::Accepted(_) => return Ok(true),
            Happening::Readable(Conn(1)) => {
                if wires.read(Conn(1), &mut [0; 1]) != ReadAnswer::Some(1) {
                    return Ok(false);
                }
            }
            _ => {}
        }
    }
    Ok(false)
}

// Whether peers are accepted, though octets of the first one wait at each turn.
fn hears_of_others<W: Wires>(rt: HostRuntime, wires: &mut W, address: &str) -> io::Result<bool> {
    if wires.listen(address).is_err() {
        return Ok(false);
    }
    let mut busy = net::TcpStream::connect(&rt, address)?;
    busy.write_all(&[7; 200])?;
    let is_first = accepted(rt, wires)? == Some(Conn(1));
    let is_heard = is_accepted_beside(rt, wires, address, 40)?;
    Ok(is_first && is_heard && is_accepted_beside(rt, wires, address, 40)?)
}

// Whether a connection, though there is room at it, isn't told to be writable.
fn is_not_told_of_room<W: Wires>(rt: HostRuntime, wires: &mut W, conn: Conn) -> io::Result<bool> {
    for _ in 0..5 {
        let is_written = wires.write(conn, b"octets") == WriteAnswer::Some(6);
        if !is_written || wires.turn(Some(soon(rt)?)) == Happening::Writable(conn) {
            return Ok(false);
        }
    }
    Ok(true)
}

// Whether it isn't of a peer that is accepted.
fn tells_no_room<W: Wires>(rt: HostRuntime, wires: &mut W, address: &str) -> io::Result<bool> {
    if wires.listen(address).is_err() {
        return Ok(false);
    }
    let _peer = net::TcpStream::connect(&rt, address)?;
    let is_accepted = accepted(rt, wires)? == Some(Conn(1));
    Ok(is_accepted && is_not_told_of_room(rt, wires, Conn(1))?)
}

// A peer that listens is called.
fn calls_a_listener<W: Wires>(rt: HostRuntime, wires: &mut W) -> Result<bool, Fail> {
    let listener = listener(rt)?;
    let address = address_of(rt, &listener)?;
    Ok(calls_a_peer(rt, wires, &listener, address.as_str())?)
}

// Calls fail at a listener's address, and a dial of it once the listener is gone.
fn fails<W: Wires>(rt: HostRuntime, wires: &mut W) -> Result<bool, Fail> {
    let listener = listener(rt)?;
    let taken = address_of(rt, &listener)?;
    let is_nowhere = listens_nowhere(wires, taken.as_str());
    drop(listener);
    Ok(is_nowhere && is_refused(rt, wires, taken.as_str())?)
}

// People are told beside a listener, and a turn behind that waits.
fn tells_and_waits(rt: HostRuntime, wires: &mut MioWires<HostRuntime>) -> Result<bool, Fail> {
    let listener = listener(rt)?;
    let taken = address_of(rt, &listener)?;
    Ok(tells_people(rt, wires, taken.as_str())? && waits(rt, wires)?)
}

// What is shown of wires over sockets.
#[derive(Clone, Copy)]
enum Case {
    Serving,
    Calling,
    Failing,
    HoldingBack,
    TellingPeople,
    HearingOfOthers,
    TellingNoRoom,
}

// Whether wires show it, at an address that nobody had.
fn is_shown(
    rt: HostRuntime,
    wires: &mut MioWires<HostRuntime>,
    address: &str,
    case: Case,
) -> Result<bool, Fail> {
    match case {
        Case::Serving => Ok(serves_a_peer(rt, wires, address)?),
        Case::Calling => calls_a_listener(rt, wires),
        Case::Failing => fails(rt, wires),
        Case::HoldingBack => holds_one_back(rt, wires, address, &mut Vec::new(rt.alloc())),
        Case::TellingPeople => tells_and_waits(rt, wires),
        Case::HearingOfOthers => Ok(hears_of_others(rt, wires, address)?),
        Case::TellingNoRoom => Ok(tells_no_room(rt, wires, address)?),
    }
}

// The same of new wires: their one owner, so that they are let go in one place.
fn shows(rt: HostRuntime, case: Case) -> Result<bool, Fail> {
    let address = free_address(rt)?;
    let mut wires = MioWires::new(rt.alloc(), rt)?;
    let is_shown = is_shown(rt, &mut wires, address.as_str(), case);
    drop(wires);
    is_shown
}

#[test]
fn a_peer_is_accepted_read_answered_and_ends(rt: HostRuntime) -> Result<(), Fail> {
    assert!(rt; shows(rt, Case::Serving)?);
    Ok(())
}

#[test]
fn a_peer_is_dialled_and_written_to(rt: HostRuntime) -> Result<(), Fail> {
    assert!(rt; shows(rt, Case::Calling)?);
    Ok(())
}

#[test]
fn calls_that_fail(rt: HostRuntime) -> Result<(), Fail> {
    assert!(rt; shows(rt, Case::Failing)?);
    Ok(())
}

#[test]
fn no_more_are_accepted_than_can_be_open(rt: HostRuntime) -> Result<(), Fail> {
    assert!(rt; shows(rt, Case::HoldingBack)?);
    Ok(())
}

#[test]
fn people_are_told_and_waits_end(rt: HostRuntime) -> Result<(), Fail> {
    assert!(rt; shows(rt, Case::TellingPeople)?);
    Ok(())
}

#[test]
fn one_that_is_always_readable_holds_nobody_back(rt: HostRuntime) -> Result<(), Fail> {
    assert!(rt; shows(rt, Case::HearingOfOthers)?);
    Ok(())
}

#[test]
fn room_that_nobody_waits_for_is_not_told(rt: HostRuntime) -> Result<(), Fail> {
    assert!(rt; shows(rt, Case::TellingNoRoom)?);
    Ok(())
}
