//! A train: what it sends, act by act.

use crate::serving::randoms_behind;
use arrayvec::ArrayVec;
use des_block::TripleKey;
use er_base::{EtcsNumber, Moment, NoMemory};
use er_end::End;
use er_settings::Settings;
use key_store::{KeyFileFault, KeyStore};
use rand_core::Rng;
use session_keys::Kmac;
use std::alloc::Global;

/// Octets that are read, or written, at once.
pub(crate) type Piece = ArrayVec<u8, 512>;

/// The radio block centre that is called.
pub(crate) fn centre() -> EtcsNumber {
    EtcsNumber::new(9)
}

// The moment of every event.
fn moment() -> Moment {
    Moment::new(0)
}

/// The KMAC of every train.
pub(crate) const KMAC: TripleKey = TripleKey {
    first: 0x0123456789abcdef,
    second: 0x23456789abcdef01,
    third: 0x456789abcdef0123,
};

// The key file of the radio block centre.
const KEYS: &[u8] = b"version = 1
[[key]]
engine = 5
rbc = 9
kmac = \"0123456789abcdef23456789abcdef01456789abcdef0123\"
[[key]]
engine = 6
rbc = 9
kmac = \"0123456789abcdef23456789abcdef01456789abcdef0123\"
[[key]]
engine = 7
rbc = 9
kmac = \"0123456789abcdef23456789abcdef01456789abcdef0123\"
[[key]]
engine = 8
rbc = 9
kmac = \"0123456789abcdef23456789abcdef01456789abcdef0123\"
";

/// The keys of the radio block centre, for the engines 5 to 8.
pub(crate) fn keys(alloc: Global) -> Result<KeyStore, KeyFileFault> {
    KeyStore::from_bytes(alloc, KEYS)
}

/// A train: an end that calls, and beside it one that answers as the loop's will, with the same random number and an Echo for its
/// user. What a train sends depends only on what it hears, and T1 never expires in these runs, so all that it sends to the loop can be
/// written down before the loop runs.
#[derive(Drop)]
pub(crate) struct Train {
    end: End,
    centre: End,
    next: Piece,
    is_connected: bool,
    reports: u8,
    reported: u8,
}

pub(crate) fn put<const N: usize>(out: &mut ArrayVec<u8, N>, octets: &[u8]) {
    let _full = out.try_extend_from_slice(octets);
}

// The position report of this number, 24 octets.
fn report(number: u8) -> [u8; 24] {
    let mut text = *b"position-report-00000000";
    text[22] = b'0' + number / 10 % 10;
    text[23] = b'0' + number % 10;
    text
}

// The user takes the messages that wait, and an Echo says each back.
fn take_all(end: &mut End, is_echo: bool, out: &mut Piece) {
    for _ in 0..end.waiting() {
        let mut text = Piece::new();
        if let Some(taken) = end.take(moment()) {
            put(&mut text, taken.text);
            put(out, taken.out);
        }
        if is_echo {
            if let Ok(deeds) = end.send(moment(), text.as_slice()) {
                put(out, deeds.out);
            }
        }
    }
}

// Octets come to an end, frame by frame: what it sends. Whether it was connected by them.
fn hear(end: &mut End, keys: &KeyStore, is_echo: bool, octets: &[u8], out: &mut Piece) -> bool {
    let mut rest = octets;
    let mut is_connected = false;
    for _ in 0..octets.len() {
        let (used, deeds) = end.octets(keys, moment(), rest);
        put(out, deeds.out);
        is_connected |= deeds.connected.is_some();
        take_all(end, is_echo, out);
        rest = rest.get(used..).unwrap_or(&[]);
        if rest.is_empty() {
            break;
        }
    }
    is_connected
}

// The train that is accepted behind so many others, with so many position reports.
fn accepted_behind(alloc: Global, others: u8, reports: u8) -> Result<Train, NoMemory> {
    let ra = randoms_behind(others).next_u64();
    Train::begin(alloc, others.saturating_add(5), ra, reports)
}

/// So many trains, with so many position reports each, of which the first is accepted behind so many others.
pub(crate) fn trains(
    alloc: Global,
    count: u8,
    others: u8,
    reports: u8,
) -> Result<Vec<Train>, NoMemory> {
    let mut trains = Vec::new(alloc);
    for place in 0..count {
        trains.push(accepted_behind(alloc, others.saturating_add(place), reports)?)?;
    }
    Ok(trains)
}

impl Train {
    /// The train of this engine, whose call is answered with this random number.
    fn begin(alloc: Global, engine: u8, ra: u64, reports: u8) -> Result<Train, NoMemory> {
        let settings = Settings::usual();
        let rb = u64::from(engine);
        let engine = EtcsNumber::new(u32::from(engine));
        let kmac = Kmac::new(KMAC);
        let mut end = End::call(alloc, &settings, engine, centre(), kmac, rb, moment())?;
        let mut next = Piece::new();
        put(&mut next, end.start(moment()).out);
        Ok(Train {
            end,
            centre: End::answer(alloc, &settings, centre(), ra, moment())?,
            next,
            is_connected: false,
            reports,
            reported: 0,
        })
    }

    /// What it sends next, and whether that is answered. It hears the answer, and reports its position once it is connected.
    pub(crate) fn speak(&mut self, keys: &KeyStore) -> (Piece, bool) {
        let mut piece = Piece::new();
        put(&mut piece, self.next.as_slice());
        self.next.clear();
        let mut answer = Piece::new();
        hear(&mut self.centre, keys, true, piece.as_slice(), &mut answer);
        let came = answer.as_slice();
        self.is_connected |= hear(&mut self.end, keys, false, came, &mut self.next);
        self.report();
        let is_answered = !answer.is_empty();
        (piece, is_answered)
    }

    // The next position report, where there is one.
    fn report(&mut self) {
        if self.is_connected && self.reported < self.reports {
            self.reported += 1;
            if let Ok(deeds) = self.end.send(moment(), &report(self.reported)) {
                put(&mut self.next, deeds.out);
            }
        }
    }

    /// It leaves with this sub-reason, when it speaks next.
    pub(crate) fn leave(&mut self, sub: u8) {
        put(&mut self.next, self.end.release(moment(), sub).out);
    }
}
