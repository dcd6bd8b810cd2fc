//! A train: what it sends, act by act.

use arrayvec::ArrayVec;
use des_block::TripleKey;
use er_base::{EtcsNumber, Moment, NoMemory};
use er_end::End;
use er_settings::Settings;
use key_store::KeyStore;
use session_keys::Kmac;
use std::alloc::Global;

/// Octets that are read, or written, at once.
pub(crate) type Piece = ArrayVec<u8, 512>;

/// The radio block centre that is called.
pub(crate) fn centre() -> EtcsNumber {
    EtcsNumber::new(9)
}

/// The engine that calls.
pub(crate) fn engine() -> EtcsNumber {
    EtcsNumber::new(5)
}

// It is always the moment 0.
fn moment() -> Moment {
    Moment::new(0)
}

/// The KMAC of the train.
pub(crate) const KMAC: TripleKey = TripleKey {
    first: 0x0123456789abcdef,
    second: 0x23456789abcdef01,
    third: 0x456789abcdef0123,
};

/// A train: an end that calls, and beside it one that answers as the loop's will, with the same random number. What a train sends depends only on what it
/// hears, so all that it sends to the loop can be written down before the loop runs.
#[derive(Drop)]
pub(crate) struct Train {
    end: End,
    centre: End,
    next: Piece,
}

fn put(out: &mut Piece, octets: &[u8]) {
    let _full = out.try_extend_from_slice(octets);
}

// Octets come to an end, frame by frame: what it sends. The messages that wait are taken where there is somebody who takes them.
fn hear(end: &mut End, keys: &KeyStore, takes: bool, octets: &[u8], out: &mut Piece) {
    let mut rest = octets;
    for _ in 0..octets.len() {
        let (used, deeds) = end.octets(keys, moment(), rest);
        put(out, deeds.out);
        if takes {
            take_all(end, out);
        }
        rest = rest.get(used..).unwrap_or(&[]);
        if rest.is_empty() {
            break;
        }
    }
}

// The messages that wait are taken.
fn take_all(end: &mut End, out: &mut Piece) {
    for _ in 0..end.waiting() {
        if let Some(taken) = end.take(moment()) {
            put(out, taken.out);
        }
    }
}

impl Train {
    /// A train, whose call is answered with this random number.
    pub(crate) fn begin(alloc: Global, ra: u64) -> Result<Train, NoMemory> {
        let settings = Settings::usual();
        let kmac = Kmac::new(KMAC);
        let mut end = End::call(alloc, &settings, engine(), centre(), kmac, 77, moment())?;
        let mut next = Piece::new();
        put(&mut next, end.start(moment()).out);
        match End::answer(alloc, &settings, centre(), ra, moment()) {
            Ok(centre) => Ok(Train { end, centre, next }),
            Err(want) => {
                drop(end);
                Err(want)
            }
        }
    }

    /// What it sends next. It hears the answer, of a centre whose messages are taken or not.
    pub(crate) fn speak(&mut self, keys: &KeyStore, takes: bool) -> Piece {
        let mut piece = Piece::new();
        put(&mut piece, self.next.as_slice());
        self.next.clear();
        let mut answer = Piece::new();
        hear(&mut self.centre, keys, takes, piece.as_slice(), &mut answer);
        hear(&mut self.end, keys, true, answer.as_slice(), &mut self.next);
        piece
    }

    /// It sends a message, when it speaks next.
    pub(crate) fn send(&mut self, text: &[u8]) {
        if let Ok(deeds) = self.end.send(moment(), text) {
            put(&mut self.next, deeds.out);
        }
    }
}
