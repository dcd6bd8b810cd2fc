//! Wires over sockets: the sockets, and beside them numbers and counts of faults.

ghost use Rattle.std.specs.Prelude.{◌≡◌, ◌≢◌, ◌≤◌, ℕ, IfOk, None};
ghost use Rattle.link_trait.specs.Wires.{opened_by_turn};
ghost use Rattle.mio_wires.specs.Counting.{unused};
ghost use Rattle.mio_wires.specs.Telling.{told_as_happening};

use crate::faults::WireFault;
use crate::lines::{APPLICATION, MOST_CONNECTIONS, MOST_PAIRED};
use crate::queue::Seen;
use crate::sockets::Sockets;
use er_base::NoMemory;
use link_trait::{Conn, Failed, Happening, ReadAnswer, Wires, WriteAnswer};
use std::alloc::Global;
use std::fs::Files;
use std::marker::Model;
use std::net::{Net, SocketAddr};
use std::rt::Clock;

/// Wires over TCP sockets.
///
/// An address is an IP address and a port, as `127.0.0.1:4711`; a listen or dial of any other text fails, and no name is
/// looked up. What happened stands in a queue, each happening once, and a turn answers the first. Where none stands there it
/// polls before, until the given moment; where one does it polls only behind sixteen answers and behind an accepted
/// connection, and doesn't wait. At most 257 connections are open at once, 513 where they are [`paired`](MioWires::paired): while
/// they are, nothing is accepted, and a dial fails. Only the calls that make it take memory.
///
/// A connection is writable once it was dialled and is made, and once there is room behind a write that took less than the
/// whole piece. Other room isn't told.
///
/// An accept that failed is tried again: at once where the fault was the connection's, else within a second. A connection
/// that was accepted and can't be registered is accepted all the same, and readable, and its first read fails.
///
/// A connection that is closed says that no more is sent, and what still comes is read away, so that what was said before
/// arrives: until its peer has closed too, at most 40 seconds, and at most 262,144 octets. A turn may be Quiet before its
/// moment.
///
/// Wires that are made [`with_application`](MioWires::with_application) listen at `unix:` and a file name, too, for the application of a loop, which is
/// connection 0 and none of those that are counted. Where one comes, it is accepted and told as writable; behind that it is as any other connection, but that
/// it is closed at once where it is closed, with all that was written to it. While one is there, another that comes is closed at once. The file has the mode
/// 0600. What is left at its name by a process that is gone is replaced; any other file there, or one at which somebody listens, is a listen that fails.
///
/// It tells nothing of its calls and of what a socket holds. It never answers Ended.
#[derive(Drop)]
pub struct MioWires<R: Net + Clock + Files + Drop> {
    sockets: Sockets<R>,
    opened: u64,
    listening: bool,
    faults: u64,
    turn_faults: u64,
    fault: Option<WireFault>,
}

impl<R: Net + Clock + Files + Drop> Model for MioWires<R> {
    ghost use Rattle.std.specs.Prelude.{◌≤◌, ◌-◌, ◌^◌};
    ghost use Rattle.mio_wires.specs.Counting.{Counting};

    ghost Value = { Counting };

    ghost view = { λ w. record { opened = w.opened; listening = w.listening; faults = w.faults; turn_faults = w.turn_faults } };

    ghost invariant = { λ w. (w.faults ≤ 2 ^ 64 - 1) × (w.turn_faults ≤ 2 ^ 64 - 1) };
}

impl<R: Net + Clock + Files + Drop> MioWires<R> {
    /// Wires without a connection.
    ///
    /// Where the system refuses what tells of happenings, each listen, dial and turn fails.
    pub fn new(alloc: Global, rt: R) -> Result<MioWires<R>, NoMemory>
        ensures { IfOk result (λ wires. wires ≡ unused) }
    {
        MioWires::with_most(alloc, rt, MOST_CONNECTIONS, false)
    }

    /// The same where each connection that is accepted has another one dialled for it: at most 513 are open at once.
    pub fn paired(alloc: Global, rt: R) -> Result<MioWires<R>, NoMemory>
        ensures { IfOk result (λ wires. wires ≡ unused) }
    {
        MioWires::with_most(alloc, rt, MOST_PAIRED, false)
    }

    /// The same as new ones, over which an application may come, too.
    pub fn with_application(alloc: Global, rt: R) -> Result<MioWires<R>, NoMemory>
        ensures { IfOk result (λ wires. wires ≡ unused) }
    {
        MioWires::with_most(alloc, rt, MOST_CONNECTIONS, true)
    }

    // Wires without a connection, of which at most so many are open at once, and whether an application may come.
    fn with_most(alloc: Global, rt: R, most: usize, has_door: bool) -> Result<MioWires<R>, NoMemory>
        requires { most ≤ 513 }
        ensures { IfOk result (λ wires. wires ≡ unused) }
    {
        Ok(MioWires {
            sockets: Sockets::new(alloc, rt, most, has_door)?,
            opened: 0,
            listening: false,
            faults: 0,
            turn_faults: 0,
            fault: None,
        })
    }

    /// Reckons each wait from this moment on, which is now by the clock of whoever says until when to wait.
    ///
    /// At first it is the wall clock's of [`new`](MioWires::new). What time goes by is told by the system's monotonic
    /// clock, so that setting the wall clock moves no wait.
    pub fn keep_time(&mut self, now: u64)
        ensures { self.new ≡ self.old }
    {
        self.sockets.keep_time(now);
    }

    /// The address and the port at which it listens.
    pub fn address(&self) -> Option<SocketAddr> {
        self.sockets.address()
    }

    /// The address and the port of the peer of an open connection, for people: None where the system knows none any more.
    pub fn peer(&self, conn: Conn) -> Option<SocketAddr> {
        self.sockets.peer(conn.0)
    }

    /// Why the newest listen, dial or turn that failed did so.
    pub fn fault(&self) -> Option<WireFault> {
        self.fault
    }

    /// Closes each connection, removes the application's file, and waits at most so many milliseconds until the peers of all that were closed have closed
    /// too: for the end of a program, so that what was said last arrives. Nothing is to be asked of the wires behind it.
    pub fn finish(&mut self, most: u64)
        ensures { self.new ≡ self.old }
    {
        self.sockets.finish(most);
    }
}

// As what a happening is told.
fn told_as(seen: Seen) -> Happening
    ensures told { result ≡ told_as_happening seen }
    ensures no_other { (conn : Conn) → result ≢ Happening.Accepted conn }
    ensures no_fault { result ≢ Happening.Failed }
    ensures opened { (n : ℕ) → opened_by_turn result n ≡ n }
{
    match seen {
        Seen::Listener | Seen::Door => Happening::Quiet,
        Seen::Readable(number) => Happening::Readable(Conn(number)),
        Seen::Writable(number) => Happening::Writable(Conn(number)),
    }
}

impl<R: Net + Clock + Files + Drop> Wires for MioWires<R> {
    ghost state = { λ w. record {
      calls = None;
      lines = None;
      opened = w.opened;
      listening = w.listening;
      faults = w.faults;
      turn_faults = w.turn_faults;
    } };

    fn listen(&mut self, address: &str) -> Result<(), Failed> {
        match self.sockets.listen(address) {
            Ok(()) => {
                self.listening = true;
                Ok(())
            }
            Err(fault) => {
                self.faults = self.faults.saturating_add(1);
                self.turn_faults = self.turn_faults.saturating_add(1);
                self.fault = Some(fault);
                Err(Failed)
            }
        }
    }

    fn dial(&mut self, address: &str) -> Result<Conn, Failed> {
        match self.sockets.dial(address, self.opened) {
            Ok(number) => {
                self.opened = number;
                Ok(Conn(number))
            }
            Err(fault) => {
                self.faults = self.faults.saturating_add(1);
                self.turn_faults = self.turn_faults.saturating_add(1);
                self.fault = Some(fault);
                Err(Failed)
            }
        }
    }

    fn turn(&mut self, until: Option<u64>) -> Happening {
        match self.sockets.next(until) {
            Ok(Some(Seen::Listener)) if self.listening => match self.sockets.accept(self.opened) {
                Some(number) => {
                    self.opened = number;
                    Happening::Accepted(Conn(number))
                }
                None => Happening::Quiet,
            },
            Ok(Some(Seen::Door)) => {
                if self.sockets.attach() {
                    Happening::Writable(Conn(APPLICATION))
                } else {
                    Happening::Quiet
                }
            }
            Ok(Some(seen)) => told_as(seen),
            Ok(None) => Happening::Quiet,
            Err(fault) => {
                self.faults = self.faults.saturating_add(1);
                self.turn_faults = self.turn_faults.saturating_add(1);
                self.fault = Some(fault);
                Happening::Failed
            }
        }
    }

    fn read(&mut self, conn: Conn, into: &mut [u8]) -> ReadAnswer {
        match self.sockets.read(conn.0, into) {
            ReadAnswer::Some(count) => ReadAnswer::Some(count),
            ReadAnswer::NotNow => ReadAnswer::NotNow,
            ReadAnswer::End => ReadAnswer::End,
            ReadAnswer::Failed => {
                self.faults = self.faults.saturating_add(1);
                ReadAnswer::Failed
            }
        }
    }

    fn write(&mut self, conn: Conn, piece: &[u8]) -> WriteAnswer {
        match self.sockets.write(conn.0, piece) {
            WriteAnswer::Some(count) => WriteAnswer::Some(count),
            WriteAnswer::NotNow => WriteAnswer::NotNow,
            WriteAnswer::Failed => {
                self.faults = self.faults.saturating_add(1);
                WriteAnswer::Failed
            }
        }
    }

    fn close(&mut self, conn: Conn) {
        self.sockets.close(conn.0);
    }
}
