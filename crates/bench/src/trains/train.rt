//! A train: an end that calls, whose user sends reports.

use des_block::TripleKey;
use er_base::{EtcsNumber, Moment, NoMemory, Room};
use er_end::End;
use er_settings::Settings;
use safety_automaton::PairKey;
use session_keys::Kmac;
use std::alloc::Global;

/// The moment of every event.
pub fn moment() -> Moment {
    Moment::new(0)
}

/// The ETCS number of the radio block centre.
pub fn centre() -> EtcsNumber {
    EtcsNumber::new(9)
}

// The ETCS number of the engine of every train, its KMAC and its random number.
const ENGINE: u32 = 5;

const KMAC: TripleKey = TripleKey {
    first: 0x0123456789abcdef,
    second: 0x23456789abcdef01,
    third: 0x456789abcdef0123,
};

const ENGINES_WORD: u64 = 0x0102030405060708;

const REPORT: &[u8] = b"position-report-00000001";

// More octets than an end sends at one write of the loop.
const ROOM: usize = 4_096;

/// A train that is connected and sends so many reports, each once the one before was said back.
#[derive(Drop)]
pub struct Train {
    end: End,
    /// The octets that it sent and the loop hasn't got.
    pub sent: Room,
    left: u64,
    /// The messages that it heard.
    pub heard: u64,
}

impl Train {
    /// A train that calls.
    pub fn new(alloc: Global, reports: u64) -> Result<Train, NoMemory> {
        let settings = Settings::usual();
        let sent = Room::with_capacity(alloc, ROOM)?;
        let engine = EtcsNumber::new(ENGINE);
        let kmac = Kmac::new(KMAC);
        let mut train = Train {
            end: End::call(
                alloc,
                &settings,
                engine,
                centre(),
                kmac,
                ENGINES_WORD,
                moment(),
            )?,
            sent,
            left: reports,
            heard: 0,
        };
        let deeds = train.end.start(moment());
        put(deeds.out, &mut train.sent);
        Ok(train)
    }

    /// Octets come, and are read frame by frame.
    pub fn hear(&mut self, octets: &[u8]) {
        let mut left = octets;
        for _ in 0..octets.len() {
            if left.is_empty() {
                return;
            }
            let used = self.hear_frame(left);
            left = left.get(used..).unwrap_or(&[]);
        }
    }

    // Reads octets up to the first that closes a frame: how many they are.
    fn hear_frame(&mut self, octets: &[u8]) -> usize {
        // An end that calls looks no key up.
        let (used, deeds) = self.end.octets(&None::<PairKey>, moment(), octets);
        put(deeds.out, &mut self.sent);
        let is_connected = deeds.connected.is_some();
        if deeds.accepted.is_some() {
            self.take();
        }
        if is_connected {
            self.report();
        }
        used
    }

    // The user takes a message.
    fn take(&mut self) {
        if let Some(taken) = self.end.take(moment()) {
            put(taken.out, &mut self.sent);
            self.heard = self.heard.saturating_add(1);
            self.report();
        }
    }

    // The user sends a report, where one is left.
    fn report(&mut self) {
        if let Some(left) = self.left.checked_sub(1) {
            self.left = left;
            if let Ok(deeds) = self.end.send(moment(), REPORT) {
                put(deeds.out, &mut self.sent);
            }
        }
    }
}

// Octets are sent.
fn put(octets: &[u8], sent: &mut Room) {
    if octets.len() <= sent.free() {
        sent.put(octets);
    }
}
