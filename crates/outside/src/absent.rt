//! What stands for the parts that a run hasn't: a cabinet without files, wires that go nowhere, a clock that stands, and words that aren't random. No
//! name of these leaves the crate, so that they are of no use but to such a run.

ghost use Rattle.std.specs.Prelude.{◌≡◌, ◌≤◌, ◌^◌, ◌-◌, length, None, false};
ghost use Rattle.rand_core.specs.Stream.{next_u32, next_u64, fill_bytes};
ghost use Rattle.outside.specs.Absent.{no_files, no_wires, no_answers, no_words};

use link_trait::{
    Cabinet, Clock, Conn, Failed, FetchFault, Happening, ReadAnswer, Wires, WriteAnswer,
};
use rand_core::Rng;
use std::alloc::Global;

/// A cabinet of a run that has none. It tells nothing, each fetch fails, and its count of faults stands at the most that it can be.
#[derive(Drop)]
pub struct NoFiles;

impl Cabinet for NoFiles {
    ghost state = { λ _. no_files };

    fn fetch(&mut self, _alloc: Global, _name: &str) -> Result<Vec<u8>, FetchFault> {
        Err(FetchFault::Failed)
    }
}

/// Wires of a run that has none. They tell nothing, no call opens a connection, and their counts of faults stand at the most that they can be.
#[derive(Drop)]
pub struct NoWires;

impl Wires for NoWires {
    ghost state = { λ _. no_wires };

    fn listen(&mut self, _address: &str) -> Result<(), Failed> {
        Err(Failed)
    }

    fn dial(&mut self, _address: &str) -> Result<Conn, Failed> {
        Err(Failed)
    }

    fn turn(&mut self, _until: Option<u64>) -> Happening {
        Happening::Ended
    }

    fn read(&mut self, _conn: Conn, _into: &mut [u8]) -> ReadAnswer {
        ReadAnswer::End
    }

    fn write(&mut self, _conn: Conn, _piece: &[u8]) -> WriteAnswer {
        WriteAnswer::Failed
    }

    fn close(&mut self, _conn: Conn) {}
}

/// The clock of a run that has none. It tells nothing, and answers 0.
#[derive(Drop)]
pub struct NoClock;

impl Clock for NoClock {
    ghost state = { λ _. no_answers };

    fn now(&mut self) -> u64 {
        0
    }
}

/// The random words of a run that has none: all are 0.
#[derive(Drop)]
pub struct NoWords;

impl Rng for NoWords {
    ghost stream = { λ _. no_words };

    #[tactic(auto, unfolding(rand_core::specs::Stream::next_u32))]
    fn next_u32(&mut self) -> u32 {
        0
    }

    #[tactic(auto, unfolding(rand_core::specs::Stream::next_u64))]
    fn next_u64(&mut self) -> u64 {
        0
    }

    #[tactic(auto, unfolding(rand_core::specs::Stream::fill_bytes))]
    fn fill_bytes(&mut self, dst: &mut [u8]) {
        dst.fill(0);
    }
}

/// What stands for files, wires, a clock and random words in a run that has none.
#[derive(Drop)]
pub struct Absent {
    pub(crate) files: NoFiles,
    pub(crate) wires: NoWires,
    pub(crate) clock: NoClock,
    pub(crate) randoms: NoWords,
}

impl Absent {
    /// None of the four.
    pub fn new() -> Absent {
        Absent {
            files: NoFiles,
            wires: NoWires,
            clock: NoClock,
            randoms: NoWords,
        }
    }
}
