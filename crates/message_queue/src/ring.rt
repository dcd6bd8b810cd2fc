//! A ring of slots.

ghost use Rattle.std.specs.Prelude.{◌≡◌, ◌+◌, ◌≤◌, ◌<◌, ◌-◌, ◌∷◌, ◌++◌, [], length, drop, option_map, slice_get, slice_index_or, IfOk};
ghost use Rattle.message_queue.specs.Queues.{empty};
ghost use Rattle.message_queue.specs.Kept.{slot_behind_head};

use crate::slot::Slot;
use er_base::NoMemory;
use std::alloc::Global;
use std::marker::Model;

/// Messages, the oldest first, in a ring of so many slots, which are reserved once: no later call takes memory. Of a slot only the octets of
/// its message are written, an empty ring begins at its first slot again, and a slot is touched for the first time when a message comes for
/// it, so a ring of few messages touches little memory.
#[derive(Drop)]
pub(crate) struct Ring {
    slots: Vec<Slot>,
    most: usize,
    head: usize,
    count: usize,
}

impl Model for Ring {
    ghost use Rattle.std.specs.Prelude.{◌≤◌, vec_len, vec_capacity};
    ghost use Rattle.message_queue.specs.Queues.{Queue};
    ghost use Rattle.message_queue.specs.Kept.{window, IsReached};

    ghost Value = { Queue };

    ghost view = { λ r. record { waits = window r.head r.count r.slots.items; slots = r.most } };

    ghost invariant = { λ r. (r.head ≤ r.most) × (r.count ≤ r.most) × (vec_len r.slots ≤ r.most) × (r.most ≤ vec_capacity r.slots)
        × IsReached r.head r.count (vec_len r.slots) r.most };
}

impl Ring {
    /// No messages, and so many slots.
    pub(crate) fn with_slots(alloc: Global, slots: usize) -> Result<Ring, NoMemory>
        ensures { IfOk result (λ r. r ≡ empty slots) }
    {
        Ok(Ring {
            slots: Vec::with_capacity(alloc, slots)?,
            most: slots,
            head: 0,
            count: 0,
        })
    }

    /// How many messages wait.
    pub(crate) fn len(&self) -> usize
        ensures value { result ≡ length self.now.waits }
        ensures most { result ≤ self.now.slots }
    {
        self.count
    }

    /// Adds a message behind the others.
    pub(crate) fn push(&mut self, message: &[u8])
        requires room { length self.old.waits < self.old.slots }
        requires fits { length message.now ≤ 1032 }
        ensures { self.new ≡ record self.old { waits = self.old.waits ++ message.now ∷ [] } }
    {
        let at = place(self.most, self.head, self.count);
        if at == self.slots.len() {
            self.slots.push(Slot::new()).unwrap();
        }
        self.slots[at].keep(message);
        self.count += 1;
    }

    /// Lends message i, counted from the oldest on.
    pub(crate) fn get(&self, i: usize) -> &[u8]
        requires { i < length self.now.waits }
        ensures value { result.now ≡ slice_index_or self.now.waits i [] }
        ensures fits { length result.now ≤ 1032 }
    {
        self.slots[place(self.most, self.head, i)].held()
    }

    /// The n oldest messages no longer wait.
    pub(crate) fn drop_first(&mut self, n: usize)
        requires { n ≤ length self.old.waits }
        ensures { self.new ≡ record self.old { waits = drop n self.old.waits } }
    {
        if n == self.count {
            self.clear();
        } else {
            self.go_on(n);
        }
    }

    // No message waits any more.
    fn clear(&mut self)
        ensures { self.new ≡ record self.old { waits = [] } }
    {
        self.head = 0;
        self.count = 0;
    }

    // The n oldest messages no longer wait, and another does.
    fn go_on(&mut self, n: usize)
        requires { n < length self.old.waits }
        ensures { self.new ≡ record self.old { waits = drop n self.old.waits } }
    {
        self.head = place(self.most, self.head, n);
        self.count -= n;
    }
}

// The slot in a ring of so many that lies i slots behind the head.
fn place(most: usize, head: usize, i: usize) -> usize
    requires head { head ≤ most }
    requires within { i ≤ most }
    ensures { result ≡ slot_behind_head most head i }
{
    let behind = most - head;
    if i < behind { head + i } else { i - behind }
}
