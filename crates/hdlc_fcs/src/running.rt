//! The check sequence of octets that come in pieces.

ghost use Rattle.std.specs.Prelude.{◌≡◌, ℕ, List, [], ◌++◌};
ghost use Rattle.hdlc_fcs.specs.FrameCheck.{fcs_of};

use crate::sequence::{ONES, shift_octets};
use std::marker::Model;

/// The frame check sequence of the octets added so far. A contract sees that number.
#[derive(Drop)]
pub struct Running {
    register: u16,
}

impl Model for Running {
    ghost use Rattle.std.specs.Prelude.{ℕ, bit_xor};

    ghost Value = { ℕ };

    ghost view = { λ r. bit_xor r.register 65535 };
}

impl Running {
    /// The check sequence of no octets.
    pub fn new() -> Running
        ensures { result ≡ fcs_of [] }
    {
        Running { register: ONES }
    }

    /// Adds octets behind those added before.
    pub fn add(&mut self, octets: &[u8])
        ensures { (before : List ℕ) → self.old ≡ fcs_of before → self.new ≡ fcs_of (before ++ octets.now) }
    {
        self.register = shift_octets(self.register, octets);
    }

    /// The check sequence of all octets added so far.
    pub fn value(&self) -> u16
        ensures { result ≡ self.now }
    {
        self.register ^ ONES
    }
}
