//! An outside that tells people where it listens and what isn't as usual, and counts what is recorded.

ghost use Rattle.std.specs.Prelude.{◌≡◌};

use crate::told;
use counted::{Counted, JournalCounts};
use er_program::Status;
use journal::{EventTally, Journal};
use link_trait::{
    Cabinet, Clock as LoopClock, Conn, Failed, FetchFault, Happening, ReadAnswer, Sink, WriteAnswer,
};
use mio_wires::MioWires;
use outside::{Outside, Parts};
use rand::Rng;
use recorded::Recorded;
use std::alloc::Global;
use std::net::SocketAddr;
use std::rt::Clock;
use std::time::Duration;
use telling::{Watch, counts_line, keys_held};

/// What is known of sockets beside their calls.
pub(crate) trait Peers {
    /// The address at which they listen.
    fn address(&self) -> Option<SocketAddr>;

    /// The address of a connection's peer.
    fn peer(&self, conn: Conn) -> Option<SocketAddr>;
}

impl<'f, 'k, 'w, 'c, 'r, F: Cabinet, K: Sink, C: LoopClock, R: Rng> Peers
    for Recorded<Parts<'f, 'k, 'w, 'c, 'r, F, K, MioWires<HostRuntime>, C, R>> {
    fn address(&self) -> Option<SocketAddr> {
        self.outside.wires.address()
    }

    fn peer(&self, conn: Conn) -> Option<SocketAddr> {
        self.outside.wires.peer(conn)
    }
}

/// Another outside, over sockets, of which people are told on the standard error: at which address and port it listens, which keys a server has, and
/// before each wait at most a line of what wasn't as usual. What is recorded is counted. All else is that outside's.
#[derive(Drop)]
pub(crate) struct TellingOutside<O: Journal + Peers + Drop> {
    pub(crate) outside: Counted<O>,
    pub(crate) watch: Watch,
    // Whether the socket of an application couldn't be listened at.
    has_no_socket: bool,
    rt: HostRuntime,
}

/// What is left of an outside at its end.
#[derive(Drop)]
pub(crate) struct Left {
    /// The status of the run.
    pub(crate) status: Status,
    /// What was counted.
    pub(crate) counts: JournalCounts,
    /// Whether the socket of an application couldn't be listened at.
    pub(crate) has_no_socket: bool,
}

impl<O: Journal + Peers + Drop> TellingOutside<O> {
    pub(crate) fn new(outside: O, watch: Watch, rt: HostRuntime) -> TellingOutside<O>
        ensures { result.outside.outside ≡ outside }
    {
        TellingOutside {
            outside: Counted::new(outside),
            watch,
            has_no_socket: false,
            rt,
        }
    }

    // Tells what waits to be told. A line that can't be made or written is left out.
    fn tell(&mut self)
        ensures { self.new.outside ≡ self.old.outside }
    {
        let now = self.rt.monotonic().unwrap_or(Duration::ZERO);
        self.tell_news(now);
        self.tell_counts(now);
    }

    // The address of the connection of which is told next, where it isn't known.
    fn meet_next(&mut self)
        ensures { self.new.outside ≡ self.old.outside }
    {
        let Some(conn) = self.watch.unknown() else {
            return;
        };
        let peer = self.outside.outside.peer(Conn(conn));
        self.watch.meet(conn, peer);
    }

    // What wasn't as usual.
    fn tell_news(&mut self, now: Duration)
        ensures { self.new.outside ≡ self.old.outside }
    {
        if !self.watch.has_line(now) {
            return;
        }
        self.meet_next();
        if let Ok(line) = self.watch.line(self.rt.alloc(), now) {
            let _told = self.rt.eprintln(line);
        }
    }

    // The counts, every ten minutes.
    fn tell_counts(&mut self, now: Duration)
        ensures { self.new.outside ≡ self.old.outside }
    {
        let counts = self.outside.counts();
        if !self.watch.has_counts(now, counts) {
            return;
        }
        if let Ok(line) = counts_line(self.rt.alloc(), counts) {
            let _told = self.rt.eprintln(line);
        }
    }

    // What a key file has for the radio block centre of a server.
    fn look_at(&mut self, alloc: Global, file: &[u8])
        ensures { self.new.outside ≡ self.old.outside }
    {
        let Some(rbc) = self.watch.rbc else {
            return;
        };
        let now = match self.rt.since_1970() {
            Ok(since) => u64::try_from(since.as_millis()).unwrap_or(u64::MAX),
            Err(_) => 0,
        };
        self.watch.keys = keys_held(alloc, file, rbc, now);
    }

    // Where it listens, and how many keys a server has.
    fn tell_address(&self) {
        let Some(bound) = self.outside.outside.address() else {
            return;
        };
        let _ = eprintln!(self.rt; "euroradio: listening at {bound}");
        if let (Some(rbc), Some(held)) = (self.watch.rbc, self.watch.keys) {
            told::keys(self.rt, rbc, held);
        }
    }

    // The address of a connection that is closed, where something of it is still to be told.
    fn meet(&mut self, conn: Conn)
        ensures { self.new.outside ≡ self.old.outside }
    {
        if self.watch.wants_address(conn.0) {
            let peer = self.outside.outside.peer(conn);
            self.watch.meet(conn.0, peer);
        }
    }
}

impl<'f, 'k, 'w, 'c, 'r, F: Cabinet, K: Sink, C: LoopClock, R: Rng> TellingOutside<
    Recorded<Parts<'f, 'k, 'w, 'c, 'r, F, K, MioWires<HostRuntime>, C, R>>,
> {
    /// Ends it behind a run of that status: what the last turn told waits still, and is written.
    pub(crate) fn end(self, status: Status) -> Left {
        // Each part is let go by itself, since what is inside borrows objects of the caller.
        let TellingOutside {
            outside: counted,
            watch,
            has_no_socket,
            ..
        } = self;
        drop(watch);
        let Counted {
            outside: mut recorded,
            counts,
            recorded: history,
            ..
        } = counted;
        drop(history);
        let status = match recorded.write_out() {
            Ok(()) => status,
            Err(_) => Status(5),
        };
        drop(recorded);
        Left {
            status,
            counts,
            has_no_socket,
        }
    }
}

impl<O: Journal + Peers + Drop> Outside for TellingOutside<O> {
    ghost told = { λ t. O.told t.outside.outside };

    fn fetch(&mut self, alloc: Global, name: &str) -> Result<Vec<u8>, FetchFault> {
        let answer = self.outside.fetch(alloc, name);
        if let Ok(octets) = &answer {
            self.look_at(alloc, octets.as_slice());
        }
        answer
    }

    fn write(&mut self, piece: &[u8]) -> Result<(), Failed> {
        self.outside.write(piece)
    }

    fn listen(&mut self, address: &str) -> Result<(), Failed> {
        let answer = self.outside.listen(address);
        match address.strip_prefix("unix:") {
            Some(name) if answer.is_ok() => told::awaits(self.rt, name),
            Some(_) => self.has_no_socket = true,
            None => self.tell_address(),
        }
        answer
    }

    fn dial(&mut self, address: &str) -> Result<Conn, Failed> {
        self.outside.dial(address)
    }

    fn turn(&mut self, until: Option<u64>) -> Happening {
        self.tell();
        self.outside.turn(until)
    }

    fn read(&mut self, conn: Conn, into: &mut [u8]) -> ReadAnswer {
        self.outside.read(conn, into)
    }

    fn send(&mut self, conn: Conn, piece: &[u8]) -> WriteAnswer {
        self.outside.send(conn, piece)
    }

    fn close(&mut self, conn: Conn) {
        self.meet(conn);
        self.outside.close(conn);
    }

    fn moment(&mut self) -> u64 {
        self.outside.moment()
    }

    fn word(&mut self) -> u64 {
        self.outside.word()
    }
}

impl<O: Journal + Peers + Drop> Journal for TellingOutside<O> {
    fn record(&mut self, lines: &[u8], tally: &EventTally) -> Result<(), Failed> {
        let answer = self.outside.record(lines, tally);
        if answer.is_ok() {
            self.watch.hear(tally);
        }
        answer
    }
}
