//! The queue and its calls.

ghost use Rattle.std.specs.Prelude.{◌≡◌, ◌+◌, ◌≤◌, ◌<◌, ◌-◌, ◌∷◌, ◌++◌, [], length, drop, option_map, slice_get, slice_index_or, IfOk};
ghost use Rattle.message_queue.specs.Queues.{empty};

use crate::ring::Ring;
use crate::slot::Slot;
use er_base::NoMemory;
use std::alloc::Global;
use std::marker::Model;

/// Messages that wait, the oldest first, each of at most 1,032 octets, and so many at most. Memory for all is reserved once: no later call
/// takes any. A message that comes while none waits stands in the queue itself, those that come behind it in a ring of slots: what holds
/// one message at a time touches no other memory.
#[derive(Drop)]
pub struct MessageQueue {
    others: Ring,
    most: usize,
    count: usize,
    has_front: bool,
    front: Slot,
}

impl Model for MessageQueue {
    ghost use Rattle.std.specs.Prelude.{◌≡◌, ◌≤◌, length};
    ghost use Rattle.message_queue.specs.Queues.{Queue};
    ghost use Rattle.message_queue.specs.Kept.{with_front};

    ghost Value = { Queue };

    ghost view = { λ q. record { waits = with_front q.has_front q.front q.others.waits; slots = q.most } };

    ghost invariant = { λ q. (q.others.slots ≡ q.most) × (q.count ≡ length (with_front q.has_front q.front q.others.waits)) × (q.count ≤ q.most) };
}

impl MessageQueue {
    /// No messages, and room for so many.
    pub fn with_slots(alloc: Global, slots: usize) -> Result<MessageQueue, NoMemory>
        ensures { IfOk result (λ q. q ≡ empty slots) }
    {
        let others = Ring::with_slots(alloc, slots)?;
        Ok(MessageQueue {
            others,
            most: slots,
            count: 0,
            has_front: false,
            front: Slot::new(),
        })
    }

    /// How many messages wait.
    pub fn len(&self) -> usize
        ensures value { result ≡ length self.now.waits }
        ensures most { result ≤ self.now.slots }
    {
        self.count
    }

    /// Adds a message behind the others.
    pub fn push(&mut self, message: &[u8])
        requires room { length self.old.waits < self.old.slots }
        requires fits { length message.now ≤ 1032 }
        ensures { self.new ≡ record self.old { waits = self.old.waits ++ message.now ∷ [] } }
    {
        if self.count == 0 {
            self.front.keep(message);
            self.has_front = true;
        } else {
            self.others.push(message);
        }
        self.count += 1;
    }

    /// Lends message i, counted from the oldest on.
    #[tactic(auto, using(crate::proofs::Fronts::at_front, crate::proofs::Fronts::past_front))]
    pub fn get(&self, i: usize) -> &[u8]
        requires { i < length self.now.waits }
        ensures value { result.now ≡ slice_index_or self.now.waits i [] }
        ensures fits { length result.now ≤ 1032 }
    {
        if !self.has_front {
            return self.others.get(i);
        }
        if i == 0 {
            self.front.held()
        } else {
            self.others.get(i - 1)
        }
    }

    /// Lends the oldest message.
    pub fn first(&self) -> Option<&[u8]>
        ensures { option_map (λ m. m.now) result ≡ slice_get self.now.waits 0 }
    {
        if self.count == 0 {
            None
        } else {
            Some(self.get(0))
        }
    }

    /// Lends the newest message.
    pub fn last(&self) -> Option<&[u8]>
        ensures { option_map (λ m. m.now) result ≡ slice_get self.now.waits (length self.now.waits - 1) }
    {
        if self.count == 0 {
            None
        } else {
            Some(self.get(self.count - 1))
        }
    }

    /// The oldest message no longer waits, where one does.
    #[tactic(auto, using(crate::proofs::Fronts::none_leaves))]
    pub fn pop(&mut self)
        ensures { self.new ≡ record self.old { waits = drop 1 self.old.waits } }
    {
        if self.count > 0 {
            self.drop_first(1);
        }
    }

    /// The n oldest messages no longer wait.
    #[tactic(auto, using(crate::proofs::Fronts::front_leaves, crate::proofs::Fronts::fewer))]
    pub fn drop_first(&mut self, n: usize)
        requires { n ≤ length self.old.waits }
        ensures { self.new ≡ record self.old { waits = drop n self.old.waits } }
    {
        if !self.has_front {
            self.others.drop_first(n);
        } else if n > 0 {
            self.has_front = false;
            self.others.drop_first(n - 1);
        }
        self.count -= n;
    }
}
