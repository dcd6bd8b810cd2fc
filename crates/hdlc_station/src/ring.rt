//! A ring of payloads.

ghost use Rattle.std.specs.Prelude.{◌≡◌, ◌<◌, ◌≤◌, [], ◌∷◌, ◌++◌, length, drop, slice_index_or, IfOk};

use crate::payload::Payload;
use er_base::NoMemory;
use message_queue::MessageQueue;
use std::alloc::Global;
use std::marker::Model;

/// Payloads in a ring of slots that its maker reserves, each of at most 1,026 octets. A payload is written into its slot once and stays
/// there until it is let go.
#[derive(Drop)]
pub(crate) struct Ring {
    queue: MessageQueue,
}

impl Model for Ring {
    ghost use Rattle.std.specs.Prelude.{ℕ, List, ◌≤◌, length};
    ghost use Rattle.std.specs.List.{All};
    ghost use Rattle.hdlc_station.specs.Slots.{Slots};

    ghost Value = { Slots };

    ghost view = { λ r. record { items = r.queue.waits; slots = r.queue.slots } };

    ghost invariant = { λ r. All (λ (payload : List ℕ). length payload ≤ 1026) r.queue.waits };
}

impl Ring {
    /// An empty ring.
    pub(crate) fn with_slots(alloc: Global, slots: usize) -> Result<Ring, NoMemory>
        ensures { IfOk result (λ r. r ≡ record { items = []; slots = slots }) }
    {
        let queue = MessageQueue::with_slots(alloc, slots)?;
        Ok(Ring { queue })
    }

    /// The number of payloads.
    pub(crate) fn len(&self) -> usize
        ensures { result ≡ length self.now.items }
    {
        self.queue.len()
    }

    /// Keeps a payload behind the others.
    pub(crate) fn push(&mut self, payload: &Payload<'_>)
        requires { length self.old.items < self.old.slots }
        ensures items { self.new.items ≡ self.old.items ++ payload.now ∷ [] }
        ensures slots { self.new.slots ≡ self.old.slots }
    {
        self.queue.push(payload.octets());
    }

    /// Lends payload i, counted from the first one on.
    pub(crate) fn get(&self, i: usize) -> Payload<'_>
        requires { i < length self.now.items }
        ensures { result ≡ slice_index_or self.now.items i [] }
    {
        Payload::new(self.queue.get(i))
    }

    /// Lets the first n payloads go.
    pub(crate) fn drop_first(&mut self, n: usize)
        requires { n ≤ length self.old.items }
        ensures items { self.new.items ≡ drop n self.old.items }
        ensures slots { self.new.slots ≡ self.old.slots }
    {
        self.queue.drop_first(n);
    }
}
