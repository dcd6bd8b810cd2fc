//! The handle, and how a call has what it holds.

ghost use Rattle.er_end_c.specs.Ties.{IsTied};

use crate::face::{CDeeds, back_flag};
use crate::held::{Held, passes, peer_noted};
use crate::slot::Slot;
use er_base::Moment;
use loose_box::Loose;
use std::alloc::Global;
use std::mem;

// Of a handle that holds an end: the octets of "EuroRadi" on a little-endian machine. A handle that was never made zero is refused with near certainty.
const OPEN: u64 = 0x6964_6152_6f72_7545;

/// A handle, in C's own memory. It is zero before an end is made. One that says that it holds an end does: this C must leave so.
#[repr(C)]
pub struct CEnd {
    /// Whether it holds an end.
    pub open: u64,
    /// The end.
    pub slot: Slot,
    ghost tied: { IsTied «open» slot.held },
}

impl CEnd {
    ghost use Rattle.std.specs.Prelude.{◌≡◌, max, nat_lt, MatchOption, Some, None};
    ghost use Rattle.er_end_c.specs.Handles.{end_held_in_handle, is_handle_open};
    ghost use Rattle.er_end_c.specs.Calls.{peer_noted, deeds_with_back};

    /// Takes out what it holds, for the length of a call.
    pub fn take_held(&mut self, alloc: Global) -> Option<Box<Held>>
        ensures { MatchOption result
            ((end_held_in_handle self.old ≡ None) × (self.new ≡ self.old))
            (λ held. (end_held_in_handle self.old ≡ Some held.value) × (end_held_in_handle self.new ≡ None)) }
    {
        if self.open != OPEN {
            return None;
        }
        self.open = 0;
        let slot = mem::replace(&mut self.slot, Slot::empty());
        Some(slot.into_loose(alloc).into_box())
    }

    /// Puts it in.
    pub fn put_held(&mut self, held: Box<Held>)
        ensures { end_held_in_handle self.new ≡ Some held.value }
    {
        self.slot = Slot::of(Loose::of(held));
        self.open = OPEN;
    }

    /// Puts it in behind an event that came to these deeds.
    pub fn put_held_behind(&mut self, mut held: Box<Held>, deeds: &CDeeds)
        ensures { end_held_in_handle self.new ≡ Some (record held.value { peer = peer_noted deeds.now held.value.peer }) }
    {
        held.peer = peer_noted(deeds, held.peer);
        self.put_held(held);
    }

    /// The same behind an event at a moment, of which the deeds tell whether it went back.
    pub fn put_held_at(&mut self, mut held: Box<Held>, now: Moment, deeds: &mut CDeeds)
        ensures held { end_held_in_handle self.new ≡ Some (record held.value { peer = peer_noted deeds.old held.value.peer; last = max held.value.last now }) }
        ensures deeds { deeds.new ≡ deeds_with_back (nat_lt now held.value.last) deeds.old }
    {
        held.peer = peer_noted(deeds, held.peer);
        deeds.back = back_flag(passes(&mut held.last, now));
        self.put_held(held);
    }

    /// Whether it holds an end.
    pub fn is_open(&self) -> bool
        ensures { result ≡ is_handle_open self.now }
    {
        self.open == OPEN
    }
}
