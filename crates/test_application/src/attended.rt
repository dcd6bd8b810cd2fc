//! Wires in memory at which an application comes, which has number 0 as at wires over sockets.

ghost use Rattle.std.specs.Prelude.{None, ◌≡◌};

use er_base::NoMemory;
use link_memory::MemoryWires;
use link_trait::{Conn, Failed, Happening, ReadAnswer, Wires, WriteAnswer};
use std::alloc::Global;

/// Wires in memory at which an application comes.
///
/// In their script an application is a connection as any other is: those that are accepted are numbered from 1 on, and the listed numbers are applications.
/// Where one is accepted, connection 0 is told as writable, and what the script does at it happens at connection 0. While one is there, another that comes is
/// closed at once. All other connections are numbered among themselves. It tells nothing: the wires inside do.
#[derive(Drop)]
pub struct AttendedWires {
    pub wires: MemoryWires,
    applications: Vec<u64>,
    // The application that is there, and the connections in order, each by its number in the script.
    attached: Option<u64>,
    numbers: Vec<u64>,
    opened: u64,
    listening: bool,
    faults: u64,
    turn_faults: u64,
}

impl AttendedWires {
    /// Wires over these, in whose script these numbers are applications.
    pub fn new(
        alloc: Global,
        wires: MemoryWires,
        applications: &[u64],
    ) -> Result<AttendedWires, NoMemory> {
        Ok(AttendedWires {
            wires,
            applications: Vec::from_slice(alloc, applications)?,
            attached: None,
            numbers: Vec::new(alloc),
            opened: 0,
            listening: false,
            faults: 0,
            turn_faults: 0,
        })
    }

    // The number in the script of a connection. One that isn't there has 0.
    fn inside(&self, conn: Conn) -> Conn {
        let number = match conn {
            Conn(0) => self.attached,
            Conn(number) => self.numbers.get(number as usize - 1).copied(),
        };
        Conn(number.unwrap_or(0))
    }

    // The connection that has this number in the script.
    fn outside(&self, inside: Conn) -> Option<Conn> {
        if self.attached == Some(inside.0) {
            return Some(Conn(0));
        }
        let at = self.numbers.iter().position(|number| *number == inside.0)?;
        Some(Conn(at as u64 + 1))
    }

    // Whether an application is there now that this one comes. A second one is closed at once.
    fn is_attached(&mut self, inside: Conn) -> bool
        ensures opened { self.new.opened ≡ self.old.opened }
        ensures listening { self.new.listening ≡ self.old.listening }
        ensures faults { (self.new.faults ≡ self.old.faults) × (self.new.turn_faults ≡ self.old.turn_faults) }
    {
        if self.attached.is_some() {
            self.wires.close(inside);
            return false;
        }
        self.attached = Some(inside.0);
        true
    }
}

impl Wires for AttendedWires {
    ghost state = { λ w. record {
      calls = None;
      lines = None;
      opened = w.opened;
      listening = w.listening;
      faults = w.faults;
      turn_faults = w.turn_faults;
    } };

    fn listen(&mut self, address: &str) -> Result<(), Failed> {
        let (_faults, _turn_faults) = (self.faults, self.turn_faults);
        match self.wires.listen(address) {
            Ok(()) => {
                self.listening = true;
                Ok(())
            }
            Err(Failed) => {
                self.faults = self.faults.saturating_add(1);
                self.turn_faults = self.turn_faults.saturating_add(1);
                Err(Failed)
            }
        }
    }

    fn dial(&mut self, address: &str) -> Result<Conn, Failed> {
        let (_faults, _turn_faults) = (self.faults, self.turn_faults);
        match self.wires.dial(address) {
            Ok(inside) if self.opened < u64::MAX && self.numbers.push(inside.0).is_ok() => {
                self.opened += 1;
                Ok(Conn(self.opened))
            }
            _ => {
                self.faults = self.faults.saturating_add(1);
                self.turn_faults = self.turn_faults.saturating_add(1);
                Err(Failed)
            }
        }
    }

    fn turn(&mut self, until: Option<u64>) -> Happening {
        let (_faults, _turn_faults) = (self.faults, self.turn_faults);
        match self.wires.turn(until) {
            Happening::Accepted(inside) if self.applications.contains(&inside.0) => {
                if self.is_attached(inside) {
                    Happening::Writable(Conn(0))
                } else {
                    Happening::Quiet
                }
            }
            Happening::Accepted(inside) => {
                if !self.listening
                    || self.opened == u64::MAX
                    || self.numbers.push(inside.0).is_err()
                {
                    return Happening::Quiet;
                }
                self.opened += 1;
                Happening::Accepted(Conn(self.opened))
            }
            Happening::Readable(inside) => match self.outside(inside) {
                Some(conn) => Happening::Readable(conn),
                None => Happening::Quiet,
            },
            Happening::Writable(inside) => match self.outside(inside) {
                Some(conn) => Happening::Writable(conn),
                None => Happening::Quiet,
            },
            Happening::Quiet => Happening::Quiet,
            Happening::Ended => Happening::Ended,
            Happening::Failed => {
                self.faults = self.faults.saturating_add(1);
                self.turn_faults = self.turn_faults.saturating_add(1);
                Happening::Failed
            }
        }
    }

    fn read(&mut self, conn: Conn, into: &mut [u8]) -> ReadAnswer {
        let _faults = self.faults;
        let inside = self.inside(conn);
        match self.wires.read(inside, into) {
            ReadAnswer::Some(count) => ReadAnswer::Some(count),
            ReadAnswer::NotNow => ReadAnswer::NotNow,
            ReadAnswer::End => ReadAnswer::End,
            ReadAnswer::Failed => {
                self.faults = self.faults.saturating_add(1);
                ReadAnswer::Failed
            }
        }
    }

    fn write(&mut self, conn: Conn, piece: &[u8]) -> WriteAnswer {
        let _faults = self.faults;
        let inside = self.inside(conn);
        match self.wires.write(inside, piece) {
            WriteAnswer::Some(count) => WriteAnswer::Some(count),
            WriteAnswer::NotNow => WriteAnswer::NotNow,
            WriteAnswer::Failed => {
                self.faults = self.faults.saturating_add(1);
                WriteAnswer::Failed
            }
        }
    }

    fn close(&mut self, conn: Conn) {
        let _faults = self.faults;
        let inside = self.inside(conn);
        self.wires.close(inside);
        if conn.0 == 0 {
            self.attached = None;
        }
    }
}
