//! A sink of octets in memory.

ghost use Rattle.std.specs.Prelude.{◌≡◌, ◌≤◌, ◌-◌, ◌^◌, ℕ, List, ◌++◌, ◌∷◌, [], Some, IfOk, OnOk, OnErr, length, ◌<◌};
ghost use Rattle.std.specs.Result.{is_err};
ghost use Rattle.link_memory.specs.OutsideMemory.{sink_after_write, empty_sink, is_write_refused};

use crate::planned_calls::PlannedCalls;
use er_base::NoMemory;
use link_trait::{Failed, Sink};
use std::alloc::Global;
use std::marker::Model;

/// A sink in memory, which tells all that it was given.
///
/// It fails exactly at the calls that were listed by [`fail`](MemorySink::fail) and where its capacity
/// doesn't hold the piece. A write that fails keeps nothing of its piece.
#[derive(Drop)]
pub struct MemorySink {
    octets: Vec<u8>,
    capacity: usize,
    calls: PlannedCalls,
    faults: u64,
}

impl Model for MemorySink {
    ghost use Rattle.std.specs.Prelude.{◌≤◌, vec_capacity, vec_len};
    ghost use Rattle.link_memory.specs.OutsideMemory.{KeptSink};

    ghost Value = { KeptSink };

    ghost view = { λ s. record {
      held = s.octets.items;
      capacity = s.capacity;
      failing = s.calls.failing.items;
      calls = s.calls.done;
      faults = s.faults;
    } };

    ghost invariant = { λ s. (vec_len s.octets ≤ s.capacity) × (s.capacity ≤ vec_capacity s.octets) };
}

impl MemorySink {
    /// An empty sink for so many octets, which reserves their memory once.
    pub fn with_capacity(alloc: Global, octets: usize) -> Result<MemorySink, NoMemory>
        ensures { IfOk result (λ sink. sink ≡ empty_sink octets) }
    {
        Ok(MemorySink {
            octets: Vec::with_capacity(alloc, octets)?,
            capacity: octets,
            calls: PlannedCalls::new(alloc),
            faults: 0,
        })
    }

    /// Lists a call that is to fail, by its number: writes are counted from 1, those that fail too, and
    /// the count stays at 2^64 - 1.
    pub fn fail(&mut self, call: u64) -> Result<(), NoMemory>
        ensures ok { OnOk result (self.new ≡ record self.old { failing = self.old.failing ++ call ∷ [] }) }
        ensures err { OnErr result (self.new ≡ self.old) }
    {
        self.calls.fail(call)
    }

    /// The octets that were written so far.
    pub fn held(&self) -> &[u8]
        ensures { result.now ≡ self.now.held }
    {
        self.octets.as_slice()
    }
}

impl Sink for MemorySink {
    ghost state = { λ s. record { held = Some s.held; faults = s.faults } };

    fn write(&mut self, piece: &[u8]) -> Result<(), Failed>
        ensures answer { is_err result ≡ is_write_refused self.old piece.now }
        ensures state { self.new ≡ sink_after_write self.old piece.now }
        ensures most { self.new.faults ≤ 2 ^ 64 - 1 }
    {
        let is_to_fail = self.calls.begin();
        let room = self.capacity - self.octets.len();
        if is_to_fail || room < piece.len() {
            self.faults = self.faults.saturating_add(1);
            return Err(Failed);
        }
        self.octets.extend_from_slice(piece).unwrap();
        Ok(())
    }
}
