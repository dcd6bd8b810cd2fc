//! What a user says.

ghost use Rattle.std.specs.Prelude.{◌≡◌, ◌==◌, ◌≤◌, ◌<◌, length, slice_index_or, IfOk, Some};
ghost use Rattle.er_users.specs.Saying.{nothing, IsText, is_text, may_say, said_more};

use er_base::{NoMemory, Room};
use std::alloc::Global;
use std::marker::Model;

/// The most texts that a user says in answer to one thing that it hears.
pub const MOST_TEXTS: usize = 8;

/// The most octets of a text, as the most of a user message of a safe connection.
pub const MOST_TEXT_OCTETS: usize = 1_023;

/// What a user says in answer to what it hears: at most eight texts of 1 to 1,023 octets, and whether it leaves.
///
/// Only [`new`](Replies::new) takes memory.
#[derive(Drop)]
pub struct Replies {
    rooms: Vec<Room>,
    count: usize,
    leaving: Option<u8>,
}

impl Model for Replies {
    ghost use Rattle.std.specs.Prelude.{◌≡◌, ◌≤◌, All, map, take, vec_len};
    ghost use Rattle.er_users.specs.Saying.{SpokenByUser, IsText};

    ghost Value = { SpokenByUser };

    ghost view = { λ r. record { texts = take r.count (map (λ room. room.items) r.rooms.items); leave = r.leaving } };

    ghost invariant = { λ r. (vec_len r.rooms ≡ 8) × (r.count ≤ 8)
        × All (λ room. room.capacity ≡ 1023) r.rooms.items
        × All IsText (take r.count (map (λ room. room.items) r.rooms.items)) };
}

// Whether these octets are a text that can be said.
fn is_sayable(text: &[u8]) -> bool
    ensures { result ≡ is_text text.now }
{
    !text.is_empty() && text.len() <= MOST_TEXT_OCTETS
}

// Puts a text in the place of what a room holds.
fn fill(room: &mut Room, text: &[u8])
    requires { length text.now ≤ room.old.capacity }
    ensures text { room.new.items ≡ text.now }
    ensures capacity { room.new.capacity ≡ room.old.capacity }
{
    room.clear();
    room.put(text);
}

impl Replies {
    /// No text and no leave, with the memory for all that can be said.
    pub fn new(alloc: Global) -> Result<Replies, NoMemory>
        ensures { IfOk result (λ replies. replies ≡ nothing) }
    {
        let mut rooms = Vec::with_capacity(alloc, MOST_TEXTS)?;
        for _ in 0..MOST_TEXTS {
            rooms.push(Room::with_capacity(alloc, MOST_TEXT_OCTETS)?)?;
        }
        Ok(Replies {
            rooms,
            count: 0,
            leaving: None,
        })
    }

    /// Says a text behind those that were said.
    ///
    /// The answer is false exactly where eight texts are held or the text doesn't have 1 to 1,023 octets; then nothing
    /// changes.
    pub fn say(&mut self, text: &[u8]) -> bool
        ensures answer { result ≡ may_say self.old text.now }
        ensures said { self.new ≡ said_more self.old text.now }
    {
        if self.count == MOST_TEXTS || !is_sayable(text) {
            return false;
        }
        fill(&mut self.rooms[self.count], text);
        self.count += 1;
        true
    }

    /// Leaves with this sub-reason, behind the texts. The newest sub-reason counts.
    pub fn leave(&mut self, sub: u8)
        ensures { self.new ≡ record self.old { leave = Some sub } }
    {
        self.leaving = Some(sub);
    }

    /// The number of texts.
    pub fn len(&self) -> usize
        ensures len { result ≡ length self.now.texts }
        ensures most { result ≤ 8 }
    {
        self.count
    }

    /// Whether there is no text.
    pub fn is_empty(&self) -> bool
        ensures { result ≡ (length self.now.texts == 0) }
    {
        self.count == 0
    }

    /// The k-th text from 0, in the order said.
    pub fn text(&self, k: usize) -> &[u8]
        requires { k < length self.now.texts }
        ensures text { result.now ≡ slice_index_or self.now.texts k result.now }
        ensures fits { IsText result.now }
    {
        self.rooms[k].held()
    }

    /// The sub-reason with which the user leaves; None exactly where it doesn't.
    pub fn leaving(&self) -> Option<u8>
        ensures { result ≡ self.now.leave }
    {
        self.leaving
    }

    /// Forgets all that was said.
    pub fn clear(&mut self)
        ensures { self.new ≡ nothing }
    {
        self.count = 0;
        self.leaving = None;
    }
}
