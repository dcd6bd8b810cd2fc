//! Two ends that read what the other sends.

use crate::ends::side::{ROOM, Side};
use crate::ends::tally::Tally;
use des_block::TripleKey;
use er_base::{EtcsNumber, Moment, NoMemory, Room};
use er_end::End;
use er_settings::Settings;
use safety_automaton::PairKey;
use session_keys::Kmac;
use std::alloc::Global;

// The ETCS numbers of the engine and of the radio block centre.
const ENGINE: u32 = 5;

const CENTRE: u32 = 9;

// Their KMAC, which protects nothing.
const KMAC: TripleKey = TripleKey {
    first: 0x0123456789abcdef,
    second: 0x23456789abcdef01,
    third: 0x456789abcdef0123,
};

// Finds it.
fn keys() -> PairKey {
    PairKey::new(
        EtcsNumber::new(ENGINE),
        EtcsNumber::new(CENTRE),
        Kmac::new(KMAC),
    )
}

// More passes than a set-up or a message takes.
const PASSES: usize = 64;

/// An engine and a radio block centre.
#[derive(Drop)]
pub struct Wire {
    engine: Side,
    centre: Side,
}

impl Wire {
    /// Two new ends.
    pub fn new(alloc: Global, settings: &Settings) -> Result<Wire, NoMemory> {
        let forth = Room::with_capacity(alloc, ROOM)?;
        let back = Room::with_capacity(alloc, ROOM)?;
        let (caller, called) = (EtcsNumber::new(ENGINE), EtcsNumber::new(CENTRE));
        let (kmac, now) = (Kmac::new(KMAC), Moment::new(0));
        let engine = End::call(
            alloc,
            settings,
            caller,
            called,
            kmac,
            0x0102030405060708,
            now,
        )?;
        match End::answer(alloc, settings, called, 0x1122334455667788, now) {
            Ok(centre) => Ok(Wire {
                engine: Side::new(engine, keys(), forth),
                centre: Side::new(centre, keys(), back),
            }),
            // An end that is let go without a call has a prover read how each of its parts is let go.
            Err(refused) => {
                drop(engine);
                Err(refused)
            }
        }
    }

    /// The engine begins, and both are connected.
    pub fn set_up(&mut self, tally: &mut Tally) {
        self.engine.start();
        self.settle(Moment::new(0), tally);
    }

    /// The engine sends a message, and the radio block centre takes it; message by message a millisecond goes by.
    pub fn carry(&mut self, number: u64, message: &[u8], tally: &mut Tally) {
        let now = Moment::capped(number);
        self.engine.send(now, message);
        self.settle(now, tally);
    }

    // Each reads what the other sent, until neither has more to say.
    fn settle(&mut self, now: Moment, tally: &mut Tally) {
        for _ in 0..PASSES {
            self.centre.read(now, self.engine.sent(), tally);
            self.engine.clear();
            if self.centre.sent().is_empty() {
                return;
            }
            self.engine.read(now, self.centre.sent(), tally);
            self.centre.clear();
        }
    }
}
