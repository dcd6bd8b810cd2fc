//! A list of octets with room that is reserved once.

ghost use Rattle.std.specs.Prelude.{◌≡◌, ◌+◌, [], length, IfOk};
ghost use Rattle.er_base.specs.Stored.{HasRoom, Appends};

use crate::no_memory::NoMemory;
use std::alloc::Global;
use std::marker::Model;

/// A list of octets with room that is reserved once: writing to it takes no memory.
#[derive(Drop)]
pub struct Room {
    items: Vec<u8>,
    capacity: usize,
}

impl Model for Room {
    ghost use Rattle.std.specs.Prelude.{◌≤◌, vec_len, vec_capacity};
    ghost use Rattle.er_base.specs.Stored.{Stored};

    ghost Value = { Stored };

    ghost view = { λ r. record { items = r.items.items; capacity = r.capacity } };

    ghost invariant = { λ r. (vec_len r.items ≤ r.capacity) × (r.capacity ≤ vec_capacity r.items) };
}

impl Room {
    /// An empty list with room for `n` octets.
    pub fn with_capacity(alloc: Global, n: usize) -> Result<Room, NoMemory>
        ensures empty { IfOk result (λ r. r.items ≡ []) }
        ensures capacity { IfOk result (λ r. r.capacity ≡ n) }
    {
        let items = Vec::with_capacity(alloc, n)?;
        Ok(Room { items, capacity: n })
    }

    /// The number of octets for which room is left.
    pub fn free(&self) -> usize
        ensures { result + length self.now.items ≡ self.now.capacity }
    {
        self.capacity - self.items.len()
    }

    /// Appends octets for which there is room.
    pub fn put(&mut self, octets: &[u8])
        requires { HasRoom self.old (length octets.now) }
        ensures { Appends self.old self.new octets.now }
    {
        self.items.extend_from_slice(octets).unwrap();
    }

    /// Lends the octets.
    pub fn held(&self) -> &[u8]
        ensures { result.now ≡ self.now.items }
    {
        self.items.as_slice()
    }

    /// Removes all octets.
    pub fn clear(&mut self)
        ensures items { self.new.items ≡ [] }
        ensures capacity { self.new.capacity ≡ self.old.capacity }
    {
        self.items.clear();
    }
}
