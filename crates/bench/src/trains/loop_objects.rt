//! The loop's clock, its journal, and files of which there are none.

ghost use Rattle.std.specs.Prelude.{None, ◌-◌, ◌^◌};

use crate::trains::train::moment;
use link_trait::{Cabinet, Clock, Failed, FetchFault, Sink};
use std::alloc::Global;

/// A clock that stands at the one moment of all events. It tells nothing.
#[derive(Drop)]
pub struct LoopClock;

impl Clock for LoopClock {
    ghost state = { λ _. record { answers = None } };

    fn now(&mut self) -> u64 {
        moment().get()
    }
}

/// A sink that counts octets. It tells nothing.
#[derive(Drop)]
pub struct LoopSink {
    /// The octets that were written to it.
    pub octets: u64,
}

impl Sink for LoopSink {
    ghost state = { λ _. record { held = None; faults = 0 } };

    fn write(&mut self, piece: &[u8]) -> Result<(), Failed> {
        self.octets = self.octets.saturating_add(piece.len() as u64);
        Ok(())
    }
}

/// A cabinet that has no file. It tells nothing.
#[derive(Drop)]
pub struct NoFiles;

impl Cabinet for NoFiles {
    ghost state = { λ _. record { files = None; asked = None; faults = 2 ^ 64 - 1 } };

    fn fetch(&mut self, _alloc: Global, _name: &str) -> Result<Vec<u8>, FetchFault> {
        Err(FetchFault::Failed)
    }
}
