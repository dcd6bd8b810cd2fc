//! A list of bits with room that is reserved once.

ghost use Rattle.std.specs.Prelude.{◌≡◌, ◌+◌, [], ◌∷◌, length, IfOk};
ghost use Rattle.hdlc_fcs.specs.FrameCheck.{sent_bits};
ghost use Rattle.hdlc_bits.specs.Rooms.{HasRoomForBits, AppendsBits, filled_up, bit_of};

use er_base::NoMemory;
use std::alloc::Global;
use std::marker::Model;

/// A list of bits with room that is reserved once: writing to it takes no memory.
#[derive(Drop)]
pub struct BitRoom {
    octets: Vec<u8>,
    len: usize,
    capacity: usize,
}

impl Model for BitRoom {
    ghost use Rattle.std.specs.Prelude.{◌≤◌, ◌*◌, ◌<◌, take, vec_len, vec_capacity};
    ghost use Rattle.hdlc_fcs.specs.FrameCheck.{sent_bits};
    ghost use Rattle.hdlc_bits.specs.Rooms.{StoredBits, IsFilledUp};

    ghost Value = { StoredBits };

    ghost view = { λ r. record { bits = take r.len (sent_bits r.octets.items); capacity = r.capacity } };

    ghost invariant = { λ r. IsFilledUp r.len r.octets.items × (r.len ≤ r.capacity) × (r.capacity ≤ 8 * vec_capacity r.octets) };
}

impl BitRoom {
    /// An empty list with room for so many bits.
    pub fn with_capacity(alloc: Global, bits: usize) -> Result<BitRoom, NoMemory>
        ensures empty { IfOk result (λ r. r.bits ≡ []) }
        ensures capacity { IfOk result (λ r. r.capacity ≡ bits) }
    {
        let octets = Vec::with_capacity(alloc, bits.div_ceil(8))?;
        Ok(BitRoom {
            octets,
            len: 0,
            capacity: bits,
        })
    }

    /// The number of bits for which room is left.
    pub fn free(&self) -> usize
        ensures { result + length self.now.bits ≡ self.now.capacity }
    {
        self.capacity - self.len
    }

    /// The number of bits.
    pub fn len(&self) -> usize
        ensures { result ≡ length self.now.bits }
    {
        self.len
    }

    /// Lends the bits as octets, each with its first bit lowest, the last one filled up with ones.
    pub fn octets(&self) -> &[u8]
        ensures { sent_bits result.now ≡ filled_up self.now.bits }
    {
        self.octets.as_slice()
    }

    /// Removes all bits.
    pub fn clear(&mut self)
        ensures bits { self.new.bits ≡ [] }
        ensures capacity { self.new.capacity ≡ self.old.capacity }
    {
        self.octets.clear();
        self.len = 0;
    }

    /// Appends a bit for which there is room, 1 where `one` says so.
    pub(crate) fn put(&mut self, one: bool)
        requires { HasRoomForBits self.old 1 }
        ensures { AppendsBits self.old self.new (bit_of one ∷ []) }
    {
        let place = (self.len % 8) as u32;
        self.len += 1;
        if place == 0 {
            self.octets.push(0xfe + one as u8).unwrap();
            return;
        }
        if !one {
            let last = self.octets.len() - 1;
            let octet = self.octets[last];
            self.octets[last] = octet - (1 << place);
        }
    }
}
