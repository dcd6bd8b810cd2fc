//! Two ends and the octets on the way between them.

use crate::stations::end::End;
use crate::stations::loss::Loss;
use crate::stations::measured::{Measured, ROOM};
use er_base::{NoMemory, Room};
use std::alloc::Global;

/// The most frames of a window.
const WINDOW: u64 = 31;

/// The time T1 of the stations, in milliseconds.
pub const T1: u64 = 1_000;

/// Two ends wired to each other.
#[derive(Drop)]
pub struct Wire {
    calling: End,
    called: End,
    forth: Room,
    back: Room,
    now: u64,
    waits: u64,
}

/// What came of a run.
#[derive(Drop)]
pub struct Totals {
    /// The payloads that the called end took.
    pub taken: u64,
    /// The frames that the calling end sent.
    pub forth: u64,
    /// The frames that the called end sent.
    pub back: u64,
    /// The frames of both that were lost.
    pub lost: u64,
    /// How often nothing was on the way, and T1 went by.
    pub waits: u64,
}

impl Wire {
    /// Both ends, of which the calling one has begun the set-up, and a line that loses so many frames of a hundred.
    pub fn new(
        alloc: Global,
        calling: Measured,
        called: Measured,
        seed: u64,
        of_hundred: u64,
    ) -> Result<Wire, NoMemory> {
        let mut forth = Room::with_capacity(alloc, 32 * ROOM)?;
        let back = Room::with_capacity(alloc, 32 * ROOM)?;
        let mut calling = End::new(calling, Loss::new(seed, 2, of_hundred));
        let called = End::new(called, Loss::new(seed, 1, of_hundred));
        calling.station.start(&mut forth);
        Ok(Wire {
            calling,
            called,
            forth,
            back,
            now: 0,
            waits: 0,
        })
    }

    /// The calling end hands payloads down until its window is full, and each end reads what is on the way to it. That takes a
    /// millisecond; where nothing is on the way T1 goes by.
    pub fn round(&mut self, payload: &[u8]) {
        self.hand_all(payload);
        if self.forth.held().is_empty() && self.back.held().is_empty() {
            self.waits = self.waits.saturating_add(1);
            self.now = self.now.saturating_add(T1);
        } else {
            self.now = self.now.saturating_add(1);
        }
        self.calling.station.tick(self.now, &mut self.forth);
        self.called.station.tick(self.now, &mut self.back);
        self.called
            .read(self.now, self.forth.held(), &mut self.back);
        self.forth.clear();
        self.calling
            .read(self.now, self.back.held(), &mut self.forth);
        self.back.clear();
    }

    // Payloads are handed down until the window is full.
    fn hand_all(&mut self, payload: &[u8]) {
        for _ in 0..WINDOW {
            if !self
                .calling
                .station
                .hand(self.now, payload, &mut self.forth)
            {
                return;
            }
        }
    }

    /// Rounds until so many payloads were taken, at the most so many rounds.
    pub fn run(&mut self, payload: &[u8], payloads: u64, rounds: u64) -> Totals {
        for _ in 0..rounds {
            if self.called.taken() >= payloads {
                break;
            }
            self.round(payload);
        }
        Totals {
            taken: self.called.taken(),
            forth: self.called.loss.seen(),
            back: self.calling.loss.seen(),
            lost: self
                .called
                .loss
                .lost()
                .saturating_add(self.calling.loss.lost()),
            waits: self.waits,
        }
    }
}
