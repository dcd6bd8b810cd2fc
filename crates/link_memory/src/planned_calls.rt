//! The calls of an object in memory: how many were done, and which are to fail.

ghost use Rattle.std.specs.Prelude.{◌≡◌, ℕ, List, ◌++◌, ◌∷◌, [], OnOk, OnErr};
ghost use Rattle.link_trait.specs.Outside.{counted};
ghost use Rattle.link_memory.specs.OutsideMemory.{is_listed};

use er_base::NoMemory;
use std::alloc::Global;

// Calls are counted from 1, and the count stays at 2^64 - 1.
#[derive(Drop)]
pub struct PlannedCalls {
    failing: Vec<u64>,
    done: u64,
}

impl PlannedCalls {
    // None is done, and none is to fail.
    pub fn new(alloc: Global) -> PlannedCalls
        ensures failing { result.failing.items ≡ [] }
        ensures done { result.done ≡ 0 }
    {
        PlannedCalls {
            failing: Vec::new(alloc),
            done: 0,
        }
    }

    // Lists a call that is to fail, by its number.
    pub fn fail(&mut self, call: u64) -> Result<(), NoMemory>
        ensures ok { OnOk result (self.new.failing.items ≡ self.old.failing.items ++ call ∷ []) }
        ensures err { OnErr result (self.new.failing.items ≡ self.old.failing.items) }
        ensures done { self.new.done ≡ self.old.done }
    {
        self.failing.push(call)?;
        Ok(())
    }

    // Counts a call, and says whether it is to fail.
    pub fn begin(&mut self) -> bool
        ensures listed { result ≡ is_listed self.old.failing.items self.old.done }
        ensures done { self.new.done ≡ counted self.old.done }
        ensures failing { self.new.failing.items ≡ self.old.failing.items }
    {
        self.done = self.done.saturating_add(1);
        self.failing.contains(&self.done)
    }
}
