//! One table of scripts over wires in memory, over sockets on this machine and of an application: the answers are the same, but for what the
//! trait leaves free, as in how many pieces octets come and how many turns are quiet.

use crate::application::{application_address, name_of};
use crate::peers::{accepted, address_of, listener, read_soon, soon};
use er_base::Octets;
use link_memory::{Act, MemoryWires};
use link_trait::{Conn, Happening, ReadAnswer, Wires, WriteAnswer};
use mio_wires::MioWires;
use std::io::{Read, Write};
use std::os::fd::OwnedFd;
use std::os::unix::net::UnixStream;
use std::test::Fail;
use std::{io, net};

// What the peer of a connection does, and what is done at the wires and must be answered.
#[derive(Clone, Copy)]
enum Step {
    // The peer connects, and is accepted; an application is told as writable.
    Connect,
    // So many octets come.
    Bring(usize),
    // So many octets are read, each once and in order.
    Take(usize),
    // The connection is told to be readable, and isn't read from.
    Seen,
    // The peer sends no more.
    Shut,
    // A read tells that.
    End,
    // The peer goes with octets unread; in memory the call of this number fails.
    Reset(u64),
    // A read fails.
    Fails,
    // Six octets are written whole.
    Say,
    // They arrive.
    Heard,
    // Behind them the peer hears that no more comes.
    Over,
    // Pieces are written until there is no room.
    Fill,
    // The peer reads all of them.
    Drain,
    // There is room, which is told.
    Room,
    // Nothing happens.
    Quiet,
    // The connection is closed, and nothing happens at it and nothing is done.
    Close,
}

const SCRIPTS: [&[Step]; 8] = [
    &[Step::Connect, Step::Quiet],
    &[Step::Connect, Step::Bring(5000), Step::Take(5000)],
    &[
        Step::Connect,
        Step::Bring(7),
        Step::Take(7),
        Step::Bring(3),
        Step::Take(3),
    ],
    &[
        Step::Connect,
        Step::Bring(6),
        Step::Shut,
        Step::Take(6),
        Step::End,
        Step::Say,
        Step::Heard,
        Step::Close,
        Step::Over,
    ],
    &[
        Step::Connect,
        Step::Say,
        Step::Reset(5),
        Step::Fails,
        Step::Close,
    ],
    &[Step::Connect, Step::Shut, Step::End, Step::Close],
    &[
        Step::Connect,
        Step::Bring(6),
        Step::Seen,
        Step::Say,
        Step::Close,
        Step::Heard,
        Step::Over,
    ],
    &[
        Step::Connect,
        Step::Quiet,
        Step::Fill,
        Step::Drain,
        Step::Room,
        Step::Say,
        Step::Close,
    ],
];

// The most octets that a script brings.
const MOST_BROUGHT: usize = 5000;

// The octets that peers send.
fn sent_octets(rt: HostRuntime) -> Result<Vec<u8>, Fail> {
    let mut octets = Vec::with_capacity(rt.alloc(), MOST_BROUGHT)?;
    for at in 0..MOST_BROUGHT {
        octets.push((at % 251) as u8)?;
    }
    Ok(octets)
}

// The peer of connection 1, or of 0 where it is an application, on this machine, or nobody, where what it does stands in the script of wires in memory.
#[derive(Drop)]
struct Peer<'a> {
    conn: Conn,
    address: Option<&'a str>,
    stream: Option<net::TcpStream>,
    // What it sends, what of that was read at the wires, and how many octets were written to it.
    octets: Vec<u8>,
    sent: usize,
    taken: usize,
    given: usize,
}

impl<'a> Peer<'a> {
    fn new(rt: HostRuntime, address: Option<&'a str>) -> Result<Peer<'a>, Fail> {
        let is_application = address.is_some_and(|address| address.starts_with("unix:"));
        Ok(Peer {
            conn: Conn(if is_application { 0 } else { 1 }),
            address,
            stream: None,
            octets: sent_octets(rt)?,
            sent: 0,
            taken: 0,
            given: 0,
        })
    }

    fn connect(&mut self, rt: HostRuntime) -> io::Result<()> {
        let Some(address) = self.address else {
            return Ok(());
        };
        // What is called at a socket of either domain is the same.
        self.stream = Some(if self.conn == Conn(0) {
            net::TcpStream::from(OwnedFd::from(UnixStream::connect(&rt, name_of(address))?))
        } else {
            net::TcpStream::connect(&rt, address)?
        });
        Ok(())
    }

    fn send(&mut self, count: usize) -> io::Result<()> {
        let from = self.sent;
        self.sent = from.saturating_add(count);
        match (&mut self.stream, self.octets.get(from..self.sent)) {
            (Some(stream), Some(octets)) => stream.write_all(octets),
            _ => Ok(()),
        }
    }

    fn shut(&mut self) -> io::Result<()> {
        match &self.stream {
            Some(stream) => stream.shutdown(net::Shutdown::Write),
            None => Ok(()),
        }
    }

    // Whether six octets arrive.
    fn hears(&mut self) -> io::Result<bool> {
        let mut heard = [0; 6];
        let Some(stream) = &mut self.stream else {
            return Ok(true);
        };
        stream.read_exact(&mut heard)?;
        Ok(&heard == b"answer")
    }

    // Whether no more comes.
    fn is_over(&mut self) -> io::Result<bool> {
        match &mut self.stream {
            Some(stream) => Ok(stream.read(&mut [0; 6])? == 0),
            None => Ok(true),
        }
    }

    // Reads all that was written to it.
    fn drain(&mut self) -> io::Result<()> {
        let mut heard = [0; 4096];
        let Some(stream) = &mut self.stream else {
            return Ok(());
        };
        for _ in 0..1_000_000 {
            if self.given == 0 {
                return Ok(());
            }
            let most = self.given.min(heard.len());
            self.given = self.given.saturating_sub(stream.read(&mut heard[..most])?);
        }
        Ok(())
    }

    // Whether these octets are those that come next.
    fn takes(&mut self, octets: &[u8]) -> bool {
        let until = self.taken.saturating_add(octets.len());
        let is_next = self.octets.get(self.taken..until) == Some(octets);
        self.taken = until;
        is_next
    }
}

// Reads until so many octets more came, and whether they are those that the peer sent. No turn is bounded by time: where
// something stands to be told, none waits.
fn takes<W: Wires>(wires: &mut W, peer: &mut Peer<'_>, count: usize) -> bool {
    let mut read = [0; 4096];
    let until = peer.taken.saturating_add(count);
    for _ in 0..100 {
        if peer.taken >= until {
            return peer.taken == until;
        }
        if wires.turn(None) != Happening::Readable(peer.conn) {
            continue;
        }
        match wires.read(peer.conn, &mut read) {
            ReadAnswer::Some(n) => {
                let Some(octets) = read.get(..n) else {
                    return false;
                };
                if !peer.takes(octets) {
                    return false;
                }
            }
            ReadAnswer::NotNow => {}
            _ => return false,
        }
    }
    false
}

// Writes until there is no room.
fn fills<W: Wires>(wires: &mut W, peer: &mut Peer<'_>) -> bool {
    let piece = [7; 4096];
    for _ in 0..100_000 {
        match wires.write(peer.conn, &piece) {
            WriteAnswer::Some(n) => peer.given = peer.given.saturating_add(n),
            WriteAnswer::NotNow => return peer.given > 0,
            WriteAnswer::Failed => return false,
        }
    }
    false
}

// Whether this happens in a hundred turns.
pub fn happens<W: Wires>(rt: HostRuntime, wires: &mut W, what: Happening) -> io::Result<bool> {
    for _ in 0..100 {
        if wires.turn(Some(soon(rt)?)) == what {
            return Ok(true);
        }
    }
    Ok(false)
}

// Whether the peer is accepted.
fn comes<W: Wires>(rt: HostRuntime, wires: &mut W, conn: Conn) -> io::Result<bool> {
    if conn == Conn(0) {
        return happens(rt, wires, Happening::Writable(conn));
    }
    Ok(accepted(rt, wires)? == Some(conn))
}

// Whether behind the close nothing happens and nothing is done.
fn closes<W: Wires>(rt: HostRuntime, wires: &mut W, conn: Conn) -> io::Result<bool> {
    wires.close(conn);
    let is_gone = wires.read(conn, &mut [0; 6]) == ReadAnswer::Failed
        && wires.write(conn, b"answer") == WriteAnswer::Failed;
    let happening = wires.turn(Some(soon(rt)?));
    Ok(is_gone && matches!(happening, Happening::Quiet | Happening::Ended))
}

// Whether a step is answered as it must be.
fn is_done<W: Wires>(
    rt: HostRuntime,
    wires: &mut W,
    peer: &mut Peer<'_>,
    step: Step,
) -> io::Result<bool> {
    let conn = peer.conn;
    match step {
        Step::Connect => {
            peer.connect(rt)?;
            return comes(rt, wires, conn);
        }
        Step::Bring(count) => peer.send(count)?,
        Step::Shut => peer.shut()?,
        Step::Reset(_) => peer.stream = None,
        Step::Drain => peer.drain()?,
        Step::Take(count) => return Ok(takes(wires, peer, count)),
        Step::Seen => return happens(rt, wires, Happening::Readable(conn)),
        Step::End => {
            return Ok(read_soon(rt, wires, conn, &mut [0; 6])? == ReadAnswer::End);
        }
        Step::Fails => {
            return Ok(read_soon(rt, wires, conn, &mut [0; 6])? == ReadAnswer::Failed);
        }
        Step::Say => return Ok(wires.write(conn, b"answer") == WriteAnswer::Some(6)),
        Step::Heard => return peer.hears(),
        Step::Over => return peer.is_over(),
        Step::Fill => return Ok(fills(wires, peer)),
        Step::Room => return happens(rt, wires, Happening::Writable(conn)),
        Step::Quiet => return happens(rt, wires, Happening::Quiet),
        Step::Close => return closes(rt, wires, conn),
    }
    Ok(true)
}

// Whether each step is answered as it must be.
fn plays<W: Wires>(
    rt: HostRuntime,
    wires: &mut W,
    peer: &mut Peer<'_>,
    steps: &[Step],
) -> io::Result<bool> {
    for step in steps {
        if !is_done(rt, wires, peer, *step)? {
            return Ok(false);
        }
    }
    Ok(true)
}

// The acts of wires in memory for a script whose peer sends these octets.
fn acts(rt: HostRuntime, sent: &[u8], steps: &[Step]) -> Result<Vec<Act>, Fail> {
    let mut acts = Vec::new(rt.alloc());
    let mut from = 0_usize;
    for step in steps {
        match *step {
            Step::Connect => acts.push(Act::Accept)?,
            Step::Bring(count) => {
                let until = from.saturating_add(count);
                let brought = sent.get(from..until).unwrap_or(&[]);
                from = until;
                let octets = Octets::new(Vec::from_slice(rt.alloc(), brought)?);
                acts.push(Act::Bring { conn: 1, octets })?;
            }
            Step::Shut | Step::Reset(_) => acts.push(Act::Shut { conn: 1 })?,
            Step::Drain => acts.push(Act::Room { conn: 1, room: 100 })?,
            Step::Quiet => acts.push(Act::Quiet)?,
            _ => {}
        }
    }
    Ok(acts)
}

// Whether a script is answered as it must be by wires that listen here, where the peer connects to this address, if to any.
fn is_answered<W: Wires>(
    rt: HostRuntime,
    wires: &mut W,
    here: &str,
    address: Option<&str>,
    steps: &[Step],
) -> Result<bool, Fail> {
    if wires.listen(here).is_err() {
        return Ok(false);
    }
    let mut peer = Peer::new(rt, address)?;
    let played = plays(rt, wires, &mut peer, steps);
    drop(peer);
    Ok(played?)
}

// Whether it is by these wires in memory, at which the calls of the script fail.
fn is_answered_with_failures(
    rt: HostRuntime,
    wires: &mut MemoryWires,
    steps: &[Step],
) -> Result<bool, Fail> {
    for step in steps {
        if let Step::Reset(call) = *step {
            wires.fail(call)?;
        }
    }
    is_answered(rt, wires, "here", None, steps)
}

// Whether it is by new wires in memory.
fn plays_in_memory(rt: HostRuntime, steps: &[Step]) -> Result<bool, Fail> {
    let acts = acts(rt, sent_octets(rt)?.as_slice(), steps)?;
    let mut wires = MemoryWires::new(rt.alloc(), acts, 10_000, 100, 100_000)?;
    let played = is_answered_with_failures(rt, &mut wires, steps);
    drop(wires);
    played
}

// Whether it is by new wires over sockets at this address.
fn plays_over_sockets(rt: HostRuntime, address: &str, steps: &[Step]) -> Result<bool, Fail> {
    let mut wires = MioWires::with_application(rt.alloc(), rt)?;
    let played = is_answered(rt, &mut wires, address, Some(address), steps);
    wires.finish(0);
    drop(wires);
    played
}

#[test]
fn each_script_is_answered_in_memory(rt: HostRuntime) -> Result<(), Fail> {
    for steps in SCRIPTS {
        assert!(rt; plays_in_memory(rt, steps)?);
    }
    Ok(())
}

#[test]
fn each_script_is_answered_over_sockets(rt: HostRuntime) -> Result<(), Fail> {
    for steps in SCRIPTS {
        let address = address_of(rt, &listener(rt)?)?;
        assert!(rt; plays_over_sockets(rt, address.as_str(), steps)?);
    }
    Ok(())
}

#[test]
fn each_script_of_an_application_is_answered(rt: HostRuntime) -> Result<(), Fail> {
    let address = application_address(rt, "scripts")?;
    for steps in SCRIPTS {
        assert!(rt; plays_over_sockets(rt, address.as_str(), steps)?);
    }
    Ok(())
}
