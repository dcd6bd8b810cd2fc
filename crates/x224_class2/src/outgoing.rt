//! What waits to be sent at a transport.

ghost use Rattle.std.specs.Prelude.{◌≡◌, ◌<◌, ◌≤◌, [], ◌∷◌, ◌++◌, length, slice_index_or, drop, IfOk, if◌then◌else◌, nat_lt};

use er_base::NoMemory;
use message_queue::MessageQueue;
use std::alloc::Global;
use std::marker::Model;

/// The greatest number of messages that wait.
pub const SLOTS: usize = 16;

/// The messages that wait for their last segment to be given, in slots that are reserved once. Contracts
/// see of each message what wasn't given yet.
#[derive(Drop)]
pub struct Outgoing {
    given: usize,
    messages: MessageQueue,
}

impl Model for Outgoing {
    ghost use Rattle.std.specs.Prelude.{ℕ, List, ◌≡◌};
    ghost use Rattle.x224_class2.specs.Waiting.{left_of, AreWaitingMessages};

    ghost Value = { List (List ℕ) };

    ghost view = { λ o. left_of o.given o.messages.waits };

    ghost invariant = { λ o. AreWaitingMessages o.given o.messages.waits × (o.messages.slots ≡ 16) };
}

impl Outgoing {
    /// No messages, and room for sixteen.
    pub fn with_slots(alloc: Global) -> Result<Outgoing, NoMemory>
        ensures { IfOk result (λ made. made ≡ []) }
    {
        let messages = MessageQueue::with_slots(alloc, SLOTS)?;
        Ok(Outgoing { messages, given: 0 })
    }

    /// How many messages wait.
    pub fn len(&self) -> usize
        ensures value { result ≡ length self.now }
        ensures most { result ≤ 16 }
    {
        self.messages.len()
    }

    /// Adds a message behind the others.
    pub fn push(&mut self, message: &[u8])
        requires room { length self.old < 16 }
        requires least { 1 ≤ length message.now }
        requires most { length message.now ≤ 1032 }
        ensures { self.new ≡ self.old ++ message.now ∷ [] }
    {
        self.messages.push(message);
    }

    /// Lends what is left of the first message.
    pub fn first(&self) -> &[u8]
        requires { 0 < length self.now }
        ensures value { result.now ≡ slice_index_or self.now 0 [] }
        ensures some { 0 < length result.now }
    {
        let first = self.messages.first().unwrap();
        &first[self.given..]
    }

    /// Takes octets away from the first message; it no longer waits where they were all that was left.
    pub fn give(&mut self, octets: usize)
        requires some { 0 < length self.old }
        requires within { octets ≤ length (slice_index_or self.old 0 []) }
        ensures { self.new ≡ if nat_lt octets (length (slice_index_or self.old 0 [])) then drop octets (slice_index_or self.old 0 []) ∷ drop 1 self.old else drop 1 self.old }
    {
        let left = self.messages.first().unwrap().len() - self.given;
        if octets < left {
            self.given += octets;
        } else {
            self.given = 0;
            self.messages.pop();
        }
    }
}
