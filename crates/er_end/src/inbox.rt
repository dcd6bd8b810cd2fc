//! Messages that were accepted and wait to be taken.

ghost use Rattle.std.specs.Prelude.{◌≡◌, ◌≤◌, ◌-◌, true, false, [], length, IfOk, if◌then◌else◌, slice_get, option_map};
ghost use Rattle.er_end.specs.Inboxes.{empty, kept_more, kept_fewer, newest_of};

use er_base::NoMemory;
use message_queue::MessageQueue;
use std::alloc::Global;
use std::marker::Model;

/// The greatest number of messages that wait.
pub const SLOTS: usize = 15;

/// The accepted messages that wait for the user, in slots that are reserved once. The one that was taken in this event is lent from its
/// slot, which is free again when the next event begins.
#[derive(Drop)]
pub struct Inbox {
    lent: bool,
    fresh: bool,
    messages: MessageQueue,
}

impl Model for Inbox {
    ghost use Rattle.std.specs.Prelude.{◌≡◌};
    ghost use Rattle.er_end.specs.Inboxes.{KInbox, messages_behind_take, taken_from, IsWithin};

    ghost Value = { KInbox };

    ghost view = { λ i. record { waits = messages_behind_take i.lent i.messages.waits; last = taken_from i.lent i.messages.waits; fresh = i.fresh } };

    ghost invariant = { λ i. (i.messages.slots ≡ 16) × IsWithin i.lent i.messages.waits };
}

impl Inbox {
    /// No messages, and room for fifteen behind one that is lent.
    pub fn with_slots(alloc: Global) -> Result<Inbox, NoMemory>
        ensures { IfOk result (λ made. made ≡ empty) }
    {
        let messages = MessageQueue::with_slots(alloc, SLOTS + 1)?;
        Ok(Inbox {
            messages,
            lent: false,
            fresh: false,
        })
    }

    /// An event begins: no message came in it yet, and none was taken.
    pub fn begin(&mut self)
        ensures { self.new ≡ record self.old { last = []; fresh = false } }
    {
        if self.lent {
            self.messages.pop();
            self.lent = false;
        }
        self.fresh = false;
    }

    /// A message comes and waits, where fewer than fifteen do.
    pub fn keep(&mut self, message: &[u8])
        requires { length message.now ≤ 1023 }
        ensures { self.new ≡ kept_more self.old message.now }
    {
        if self.len() < SLOTS {
            self.messages.push(message);
            self.fresh = true;
        }
    }

    /// The oldest message no longer waits.
    pub fn take(&mut self)
        ensures { self.new ≡ kept_fewer self.old }
    {
        if self.lent {
            self.messages.pop();
        }
        self.lent = self.messages.len() > 0;
    }

    /// How many messages wait, at most 15.
    pub fn len(&self) -> usize
        ensures value { result ≡ length self.now.waits }
        ensures most { result ≤ 15 }
    {
        if self.lent {
            self.messages.len() - 1
        } else {
            self.messages.len()
        }
    }

    /// Lends the message that came in this event.
    pub fn newest(&self) -> Option<&[u8]>
        ensures { option_map (λ m. m.now) result ≡ newest_of self.now }
    {
        if !self.fresh || self.len() == 0 {
            return None;
        }
        self.messages.last()
    }

    /// Lends the message that was taken in this event; no octets where none was.
    pub fn taken(&self) -> &[u8]
        ensures { result.now ≡ self.now.last }
    {
        if !self.lent {
            return &[];
        }
        self.messages.first().unwrap_or(&[])
    }
}
