//! All TPDUs of some shapes, one by one.

ghost use Rattle.std.specs.Prelude.{◌≡◌, ◌≤◌, ◌<◌, ◌↔◌, IsTrue, IfSome, length};
ghost use Rattle.x224_tpdu.specs.declared.kind.Kind.TheVariants.{Er};
ghost use Rattle.x224_tpdu.specs.Spellings.{pdu_of, kind_in};

use crate::counts::Counts;
use crate::table::OF_TWELVE;
use er_base::Room;
use std::alloc::Global;
use x224_tpdu::{Tpdu, laws, read, write_into};

/// A run over TPDUs, with room for one that is written.
#[derive(Drop)]
pub struct Sweep {
    step: usize,
    counts: Counts,
    out: Room,
    ghost above_zero: { 0 < step },
    ghost enough: { 1024 ≤ out.capacity },
}

impl Sweep {
    /// A run in which an octet goes through every `step`th value; None where memory is missing.
    pub fn new(alloc: Global, step: u8) -> Option<Sweep>
        requires { 0 < step }
    {
        let out = Room::with_capacity(alloc, 1_024).ok()?;
        Some(Sweep {
            step: usize::from(step),
            counts: Counts::default(),
            out,
        })
    }

    /// What was counted so far.
    pub fn counts(&self) -> Counts {
        self.counts
    }

    /// Every TPDU with a length indicator of 4 or 5, of all codes and all last octets of the header,
    /// to the references 0 and 1, with 0, 1 and 2 octets behind the header.
    pub fn short_tpdus(&mut self) {
        for li in 4..6 {
            for dst in 0..2 {
                for behind in 0..3 {
                    self.short_tpdus_of(li, dst, behind);
                }
            }
        }
    }

    fn short_tpdus_of(&mut self, li: usize, dst: u8, behind: usize)
        requires header { (4 ≤ li) × (li ≤ 5) }
        requires user { behind ≤ 2 }
    {
        let mut octets = [li as u8, 0, 0, dst, 0, 0, 0x41, 0x42];
        for code in (0..=255).step_by(self.step) {
            for last in (0..=255).step_by(self.step) {
                octets[1] = code;
                octets[li] = last;
                self.try_octets(&octets[..li + 1 + behind]);
            }
        }
    }

    /// Every CR, CC and DR of the table with two of its twelve octets gone through all values.
    pub fn tpdus_of_twelve(&mut self) {
        for base in OF_TWELVE {
            for first in 0..12 {
                for second in first + 1..12 {
                    self.vary(base, first, second);
                }
            }
        }
    }

    fn vary(&mut self, base: [u8; 12], first: usize, second: usize)
        requires first { first < 12 }
        requires second { second < 12 }
    {
        let mut octets = base;
        for a in (0..=255).step_by(self.step) {
            for b in (0..=255).step_by(self.step) {
                octets[first] = a;
                octets[second] = b;
                self.try_octets(&octets);
            }
        }
    }

    // Reads octets and, where they are a TPDU that can be written, writes it and reads it again.
    fn try_octets(&mut self, octets: &[u8]) {
        let answer = read(octets);
        self.counts.add(&answer);
        let Ok(tpdu) = answer else {
            return;
        };
        if is_error(&tpdu) {
            return;
        }
        laws::writing();
        self.out.clear();
        write_into(&tpdu, &mut self.out);
        let same = match read(self.out.held()) {
            Ok(again) => again == tpdu,
            Err(_) => false,
        };
        if same {
            self.counts.same = self.counts.same.saturating_add(1);
        } else {
            self.counts.other = self.counts.other.saturating_add(1);
        }
    }
}

fn is_error(tpdu: &Tpdu) -> bool
    ensures { IsTrue result ↔ (kind_in (pdu_of tpdu.now) ≡ Er) }
{
    matches!(tpdu, Tpdu::Er { .. })
}
