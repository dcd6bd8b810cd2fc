//! Wires to trains.

ghost use Rattle.std.specs.Prelude.{None};

use crate::trains::record::Record;
use er_base::NoMemory;
use link_trait::{Conn, Failed, Happening, ReadAnswer, Wires, WriteAnswer};
use std::alloc::Global;

/// Wires that accept each train, and then bring what the trains send, piece by piece, one of each in turn. They tell nothing.
#[derive(Drop)]
pub struct TrainWires {
    /// What the trains sent.
    pub record: Record,
    trains: u64,
    opened: u64,
    listening: bool,
    faults: u64,
    /// The octets that were written to the trains.
    pub written: u64,
}

impl TrainWires {
    /// Wires to so many new trains, each of which sends so many reports.
    pub fn new(alloc: Global, trains: u64, reports: u64) -> Result<TrainWires, NoMemory> {
        Ok(TrainWires {
            record: Record::new(alloc, trains, reports)?,
            trains,
            opened: 0,
            listening: false,
            faults: 0,
            written: 0,
        })
    }

    /// Wires over which the record of what was sent is played; what was counted stays.
    pub fn rewind(&mut self) {
        self.record.rewind();
        self.opened = 0;
        self.listening = false;
    }

    // The connection of the piece of this number.
    fn conn(&self, number: usize) -> Conn {
        let place = (number as u64).checked_rem(self.trains).unwrap_or(0);
        Conn(place.saturating_add(1))
    }
}

impl Wires for TrainWires {
    ghost state = { λ w. record {
      calls = None;
      lines = None;
      opened = w.opened;
      listening = w.listening;
      faults = w.faults;
      turn_faults = w.faults;
    } };

    fn listen(&mut self, _address: &str) -> Result<(), Failed> {
        let _faults = self.faults;
        self.listening = true;
        Ok(())
    }

    fn dial(&mut self, _address: &str) -> Result<Conn, Failed> {
        self.faults = self.faults.saturating_add(1);
        Err(Failed)
    }

    fn turn(&mut self, _until: Option<u64>) -> Happening {
        let _faults = self.faults;
        if self.listening && self.opened < self.trains {
            self.opened += 1;
            return Happening::Accepted(Conn(self.opened));
        }
        match self.record.bring() {
            Ok(Some(number)) => Happening::Readable(self.conn(number)),
            Ok(None) => Happening::Ended,
            Err(_want) => {
                self.faults = self.faults.saturating_add(1);
                Happening::Failed
            }
        }
    }

    fn read(&mut self, _conn: Conn, into: &mut [u8]) -> ReadAnswer {
        let _faults = self.faults;
        let octets = self.record.waiting();
        if octets.is_empty() {
            return ReadAnswer::NotNow;
        }
        let count = octets.len().min(into.len());
        into[..count].copy_from_slice(&octets[..count]);
        self.record.pass(count);
        ReadAnswer::Some(count)
    }

    fn write(&mut self, conn: Conn, piece: &[u8]) -> WriteAnswer {
        let _faults = self.faults;
        self.written = self.written.saturating_add(piece.len() as u64);
        if let Some(place) = conn.0.checked_sub(1) {
            self.record.tell(place as usize, piece);
        }
        WriteAnswer::Some(piece.len())
    }

    fn close(&mut self, _conn: Conn) {
        let _faults = self.faults;
    }
}
