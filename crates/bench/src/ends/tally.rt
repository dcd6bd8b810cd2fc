//! What is counted while two ends talk.

use std::fmt;

/// What came of all events.
#[derive(Drop)]
pub struct Tally {
    connected: u64,
    taken: u64,
    octets: u64,
    frames: u64,
    line: u64,
}

impl Tally {
    /// Nothing came yet.
    pub fn new() -> Tally {
        Tally {
            connected: 0,
            taken: 0,
            octets: 0,
            frames: 0,
            line: 0,
        }
    }

    /// An end was connected.
    pub fn connected(&mut self) {
        self.connected = self.connected.saturating_add(1);
    }

    /// A message of so many octets was taken.
    pub fn taken(&mut self, octets: usize) {
        self.taken = self.taken.saturating_add(1);
        self.octets = self.octets.saturating_add(octets as u64);
    }

    /// A frame of so many octets was read.
    pub fn read(&mut self, octets: usize) {
        self.frames = self.frames.saturating_add(1);
        self.line = self.line.saturating_add(octets as u64);
    }
}

impl fmt::Display for Tally {
    fn fmt<W: fmt::Write>(&self, f: &mut fmt::Formatter<W>) -> fmt::Result {
        write!(
            f,
            "connected {} taken {} octets {} frames {} line {}",
            self.connected, self.taken, self.octets, self.frames, self.line
        )
    }
}
