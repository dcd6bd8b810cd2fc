//! The connections that leave: whoever has the wires closed them, and their peers may still send.

ghost use Rattle.std.specs.Prelude.{◌≡◌, ◌==◌, ◌+◌, ◌<◌, ℕ, not, true, false, None, length, drop, slice_get, option_map, IfOk, IfSome, OnSome};
ghost use Rattle.mio_wires.specs.Leaving.{none_leave, with_leaving, first_until, staying, others};

use crate::leaving::Leaving;
use er_base::NoMemory;
use std::alloc::Global;
use std::collections::VecDeque;
use std::marker::Model;

// How long a connection leaves at the most, in milliseconds.
const LEAVING_TIME: u64 = 40_000;

// Those that leave, in the order in which they have to be gone. A clause sees them as that list, and the moment of the last one.
#[derive(Drop)]
pub struct Leavers {
    leaving: VecDeque<Leaving>,
    newest: u64,
}

impl Model for Leavers {
    ghost use Rattle.mio_wires.specs.Leaving.{Leavers, RisesBetween};

    ghost Value = { Leavers };

    ghost view = { λ l. record { waits = l.leaving.items; newest = l.newest } };

    ghost invariant = { λ l. RisesBetween 0 l.newest l.leaving.items };
}

impl Leavers {
    // None, with the memory for so many.
    pub fn with_capacity(alloc: Global, connections: usize) -> Result<Leavers, NoMemory>
        ensures { IfOk result (λ leavers. leavers ≡ none_leave) }
    {
        Ok(Leavers {
            leaving: VecDeque::with_capacity(alloc, connections)?,
            newest: 0,
        })
    }

    pub fn len(&self) -> usize
        ensures { result ≡ length self.now.waits }
    {
        self.leaving.len()
    }

    // The moment at which the first has to be gone. None of the others has to be gone earlier: where the first stays, all do.
    pub fn first(&self) -> Option<u64>
        ensures first { result ≡ first_until self.now.waits }
        ensures least { (now : ℕ) → IfSome result (λ until. now < until → staying now self.now.waits ≡ self.now.waits) }
    {
        Some(self.leaving.front()?.until)
    }

    // One more, which begins to leave now. False where there is no memory for it.
    pub fn add(&mut self, slot: usize, now: u64) -> bool
        ensures added { result ≡ true → self.new ≡ with_leaving slot now self.old }
        ensures refused { result ≡ false → self.new ≡ self.old }
    {
        let until = self.newest.max(now.saturating_add(LEAVING_TIME));
        if self.leaving.push_back(Leaving { slot, until }).is_err() {
            return false;
        }
        self.newest = until;
        true
    }

    // Takes out the first.
    pub fn take_first(&mut self) -> Option<usize>
        ensures first { result ≡ option_map (λ one. one.slot) (slice_get self.old.waits 0) }
        ensures rest { self.new ≡ record self.old { waits = drop 1 self.old.waits } }
    {
        Some(self.leaving.pop_front()?.slot)
    }

    // Takes out the first where its moment has come.
    pub fn take_due(&mut self, now: u64) -> Option<usize>
        ensures due { OnSome result (staying now self.new.waits ≡ staying now self.old.waits) }
        ensures fewer { OnSome result (length self.new.waits + 1 ≡ length self.old.waits) }
        ensures none { result ≡ None → (self.new.waits ≡ self.old.waits) × (staying now self.old.waits ≡ self.old.waits) }
    {
        if now < self.first()? {
            return None;
        }
        self.take_first()
    }

    // Takes out the one in this slot.
    pub fn forget(&mut self, slot: usize)
        ensures { self.new ≡ record self.old { waits = others slot self.old.waits } }
    {
        self.leaving.retain(
            |leaving| -> bool
                ensures { result ≡ not (leaving.now.slot == slot) }
            { leaving.slot != slot },
        );
    }
}
