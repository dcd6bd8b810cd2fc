//! Trains, and the record of what they sent.

use crate::trains::train::Train;
use er_base::NoMemory;
use std::alloc::Global;

/// The pieces that the trains sent, one of each in turn, until the train whose turn it is had none.
#[derive(Drop)]
pub struct Record {
    trains: Vec<Train>,
    // The pieces, one behind another, and where each of them ends.
    octets: Vec<u8>,
    ends: Vec<usize>,
    // The piece that is next, and the octets that were brought and aren't read.
    next: usize,
    from: usize,
    to: usize,
    // Whether the trains hear what is written to them.
    is_live: bool,
}

impl Record {
    /// An empty record of new trains.
    pub fn new(alloc: Global, trains: u64, reports: u64) -> Result<Record, NoMemory> {
        let mut live = Vec::new(alloc);
        for _ in 0..trains {
            live.push(Train::new(alloc, reports)?)?;
        }
        Ok(Record {
            trains: live,
            octets: Vec::new(alloc),
            ends: Vec::new(alloc),
            next: 0,
            from: 0,
            to: 0,
            is_live: true,
        })
    }

    /// The messages that the trains heard.
    pub fn echoed(&self) -> u64 {
        let mut heard: u64 = 0;
        for train in self.trains.as_slice() {
            heard = heard.saturating_add(train.heard);
        }
        heard
    }

    /// It is played from its first piece on, and no train hears any more.
    pub fn rewind(&mut self) {
        self.is_live = false;
        self.next = 0;
        self.from = 0;
        self.to = 0;
    }

    // The next piece of the train whose turn it is.
    fn grow(&mut self) -> Result<(), NoMemory> {
        let Some(at) = self.next.checked_rem(self.trains.len()) else {
            return Ok(());
        };
        let Some(train) = self.trains.get_mut(at) else {
            return Ok(());
        };
        if !train.sent.held().is_empty() {
            self.octets.extend_from_slice(train.sent.held())?;
            self.ends.push(self.octets.len())?;
            train.sent.clear();
        }
        Ok(())
    }

    /// Brings the next piece: its number from 0, where there is one.
    pub fn bring(&mut self) -> Result<Option<usize>, NoMemory> {
        if self.next == self.ends.len() {
            self.grow()?;
        }
        let Some(end) = self.ends.get(self.next) else {
            return Ok(None);
        };
        let number = self.next;
        self.to = *end;
        self.next = number.saturating_add(1);
        Ok(Some(number))
    }

    /// Lends the octets that were brought and aren't read.
    pub fn waiting(&self) -> &[u8] {
        self.octets.get(self.from..self.to).unwrap_or(&[])
    }

    /// So many of them were read.
    pub fn pass(&mut self, count: usize) {
        self.from = self.from.saturating_add(count);
    }

    /// The train of this place hears octets, where it still does.
    pub fn tell(&mut self, place: usize, octets: &[u8]) {
        if self.is_live {
            if let Some(train) = self.trains.get_mut(place) {
                train.hear(octets);
            }
        }
    }
}
