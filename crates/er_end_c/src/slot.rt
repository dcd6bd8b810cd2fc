//! The place of a handle in which a box lies as its pointer.

ghost use Rattle.std.specs.Prelude.{◌≡◌, Option, Some, None, IsSome};
ghost use Rattle.er_end_c.specs.declared.held.Held.{Held};

use crate::held::Held as End;
use loose_box::Loose;
use std::alloc::Global;
use std::marker::Model;
use std::ptr::null_mut;

/// A box as C holds it: its pointer, or null.
#[repr(C)]
#[derive(Drop)]
pub struct Slot {
    at: *mut u8,
    ghost held: { Option Held },
}

impl Model for Slot {
    ghost use Rattle.er_end_c.specs.contracts.held.Held.{the_row};
    ghost use Rattle.er_end_c.specs.Slots.{slot_owns};

    ghost also_owns = { λ s. slot_owns the_row s.at s.held };
}

impl Slot {
    /// A slot that holds nothing.
    pub fn empty() -> Slot
        ensures { result.held ≡ None }
    {
        Slot { at: null_mut() }
    }

    /// The slot that holds this box.
    pub fn of(value: Loose<End, Global>) -> Slot
        ensures { result.held ≡ Some value.value }
    {
        let Loose { at, alloc: _ } = value;
        Slot { at: at as *mut u8 }
    }

    /// The box that it holds.
    pub fn into_loose(self, alloc: Global) -> Loose<End, Global>
        requires { IsSome self.held }
        ensures { self.held ≡ Some result.value }
    {
        let Slot { at } = self;
        Loose {
            at: at as *mut End,
            alloc,
        }
    }
}

unsafe impl Send for Slot {}
