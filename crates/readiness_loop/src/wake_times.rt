//! The moments at which the sessions are to be visited next.

ghost use Rattle.std.specs.Prelude.{◌≡◌, ◌<◌, ◌-◌, ◌^◌, ◌==◌, ◌&&◌, if◌then◌else◌, true, false, [], ℕ, None, OnOk, OnErr};
ghost use Rattle.std.specs.Ordering.{nat_cmp};
ghost use Rattle.std.specs.List.Sorted.{IsPermutation, IsSorted};
ghost use Rattle.std.specs.BTreeSet.{IsOrdered};
ghost use Rattle.readiness_loop.specs.WakeTimes.{pair_cmp, has_wake_time, is_moment, numbers_until, IsFirstWakeTime};

use er_base::{Moment, NoMemory};
use std::alloc::Global;
use std::collections::BTreeSet;

// The moments at which the sessions are to be visited next, each with the number of its session, in the order of moments.
#[derive(Drop)]
pub(crate) struct WakeTimes {
    pub(crate) pairs: BTreeSet<(u64, u64)>,
}

impl WakeTimes {
    // No session is to be visited.
    pub(crate) fn new(alloc: Global) -> WakeTimes
        ensures { result.pairs.keys ≡ [] }
    {
        WakeTimes {
            pairs: BTreeSet::new(alloc),
        }
    }

    // The first moment.
    pub(crate) fn first(&self) -> Option<u64>
        ensures { IsFirstWakeTime self.now.pairs result }
    {
        match self.pairs.first() {
            Some(pair) => Some(pair.0),
            None => None,
        }
    }

    // The numbers of those whose moment has come, in rising order.
    pub(crate) fn due(&self, moment: Moment, out: &mut Vec<u64>) -> Result<(), NoMemory>
        ensures same { OnOk result (IsPermutation (numbers_until moment self.now.pairs.keys) out.new.items) }
        ensures sorted { OnOk result (IsSorted nat_cmp out.new.items) }
        ensures ordered { OnOk result (IsOrdered pair_cmp self.now.pairs) }
    {
        out.clear();
        for pair in self.pairs.range(..(moment.get() + 1, 0)) {
            out.push(pair.1)?;
        }
        out.sort_unstable();
        Ok(())
    }

    // A session is to be visited at this moment, where it is at all, and no more at the one before.
    pub(crate) fn change(
        &mut self,
        number: u64,
        before: Option<u64>,
        now: Option<u64>,
    ) -> Result<(), NoMemory>
        requires { (m : ℕ) → has_wake_time self.old.pairs m number ≡ is_moment m before }
        ensures changed { OnOk result ((m n : ℕ) → has_wake_time self.new.pairs m n
            ≡ (if n == number then is_moment m now else has_wake_time self.old.pairs m n)) }
        ensures same { OnErr result (before ≡ None → (m n : ℕ) → has_wake_time self.new.pairs m n ≡ has_wake_time self.old.pairs m n) }
    {
        // A moment that stays costs nothing.
        if before == now {
            return Ok(());
        }
        self.forget(number, before);
        self.keep(number, now)
    }

    // A session is no more to be visited at this moment.
    pub(crate) fn forget(&mut self, number: u64, at: Option<u64>)
        ensures { (m n : ℕ) → has_wake_time self.new.pairs m n ≡ (if is_moment m at && (n == number) then false else has_wake_time self.old.pairs m n) }
    {
        if let Some(at) = at {
            self.pairs.remove(&(at, number));
        }
    }

    // A session is to be visited at this moment.
    fn keep(&mut self, number: u64, at: Option<u64>) -> Result<(), NoMemory>
        ensures kept { OnOk result ((m n : ℕ) → has_wake_time self.new.pairs m n
            ≡ (if is_moment m at && (n == number) then true else has_wake_time self.old.pairs m n)) }
        ensures same { OnErr result ((m n : ℕ) → has_wake_time self.new.pairs m n ≡ has_wake_time self.old.pairs m n) }
    {
        if let Some(at) = at {
            self.pairs.insert((at, number))?;
        }
        Ok(())
    }
}
