//! One end and the octets that it sent.

use crate::ends::tally::Tally;
use er_base::{Moment, Room};
use er_end::End;
use safety_automaton::PairKey;

/// More than what an end sends in one pass.
pub const ROOM: usize = 1_000_000;

/// An end, its keys, and the octets that it sent and the other end hasn't read.
#[derive(Drop)]
pub struct Side {
    end: End,
    keys: PairKey,
    sent: Room,
}

impl Side {
    /// The side of an end with these keys, and room for what it sends.
    pub fn new(end: End, keys: PairKey, sent: Room) -> Side {
        Side { end, keys, sent }
    }

    /// The end begins.
    pub fn start(&mut self) {
        let deeds = self.end.start(Moment::new(0));
        put(deeds.out, &mut self.sent);
    }

    /// The end's user sends a message.
    pub fn send(&mut self, now: Moment, message: &[u8]) {
        if let Ok(deeds) = self.end.send(now, message) {
            put(deeds.out, &mut self.sent);
        }
    }

    /// Reads octets frame by frame; each message that is accepted is taken at once.
    pub fn read(&mut self, now: Moment, octets: &[u8], tally: &mut Tally) {
        let mut left = octets;
        for _ in 0..octets.len() {
            if left.is_empty() {
                return;
            }
            let used = self.read_frame(now, left, tally);
            left = left.get(used..).unwrap_or(&[]);
        }
    }

    // Reads octets up to the first that closes a frame: how many they are.
    fn read_frame(&mut self, now: Moment, octets: &[u8], tally: &mut Tally) -> usize {
        let (used, deeds) = self.end.octets(&self.keys, now, octets);
        tally.read(used);
        put(deeds.out, &mut self.sent);
        if deeds.connected.is_some() {
            tally.connected();
        }
        if deeds.accepted.is_some() {
            self.take(now, tally);
        }
        used
    }

    // The end's user takes a message.
    fn take(&mut self, now: Moment, tally: &mut Tally) {
        if let Some(taken) = self.end.take(now) {
            tally.taken(taken.text.len());
            put(taken.out, &mut self.sent);
        }
    }

    /// Lends the octets that the end sent and the other end hasn't read.
    pub fn sent(&self) -> &[u8] {
        self.sent.held()
    }

    /// They were read.
    pub fn clear(&mut self) {
        self.sent.clear();
    }
}

// Octets are sent.
fn put(octets: &[u8], sent: &mut Room) {
    if octets.len() <= sent.free() {
        sent.put(octets);
    }
}
