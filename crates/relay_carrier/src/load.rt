//! What is given for a unit.

ghost use Rattle.std.specs.Prelude.{◌≡◌, ◌<◌, ◌++◌, IfOk, OnOk};
ghost use Rattle.relay_model.specs.Loads as model;
ghost use Rattle.relay_model.specs.Loads.{load_as_it_came, load_changed, with_octet_masked};
ghost use Rattle.relay_script.specs.ScriptRanges.{IsChangeInRange};
ghost use Rattle.relay_carrier.specs.Counting.{KeepsLoad};

use er_base::NoMemory;
use relay_script::Change;
use std::alloc::Global;

const FLAG: u8 = 0x7e;

/// What is given for a unit.
#[derive(Drop)]
pub struct Load {
    /// The octets.
    pub octets: Vec<u8>,
    /// How many milliseconds later, at most 2^64 - 1.
    pub delay: u64,
    /// Whether both sides are closed behind it.
    pub closes: bool,
}

// Changes the octet at a place, from 1; nothing where there is none.
fn alter(octets: &mut [u8], place: u32, mask: u8)
    requires { 0 < place }
    ensures { octets.new ≡ with_octet_masked place mask octets.old }
{
    let place = place as usize;
    if place > octets.len() {
        return;
    }
    octets[place - 1] ^= mask;
}

// Octets behind others.
fn joined(alloc: Global, front: &[u8], back: &[u8]) -> Result<Vec<u8>, NoMemory>
    ensures { IfOk result (λ all. all.items ≡ front.now ++ back.now) }
{
    let mut all = Vec::new(alloc);
    all.extend_from_slice(front)?;
    all.extend_from_slice(back)?;
    Ok(all)
}

impl Load {
    /// A unit as it came.
    pub fn of(alloc: Global, unit: &[u8]) -> Result<Load, NoMemory>
        ensures { IfOk result (λ kept. KeepsLoad kept (load_as_it_came unit.now)) }
    {
        Ok(Load {
            octets: joined(alloc, unit, &[])?,
            delay: 0,
            closes: false,
        })
    }

    /// What a line makes of it.
    pub fn change(&mut self, alloc: Global, change: &Change, unit: &[u8]) -> Result<(), NoMemory>
        requires { IsChangeInRange change.now }
        ensures { OnOk result ((load : model.Load) → KeepsLoad self.old load → KeepsLoad self.new (load_changed change.now unit.now load)) }
    {
        match change {
            Change::Lose => self.octets = joined(alloc, &[FLAG], &[])?,
            Change::Repeat => self.octets.extend_from_slice(unit)?,
            Change::Alter { place, mask } => alter(self.octets.as_mut_slice(), *place, *mask),
            Change::Put { text } => {
                self.octets = joined(alloc, text.as_slice(), self.octets.as_slice())?;
            }
            Change::Delay { milliseconds } => {
                self.delay = self.delay.saturating_add(u64::from(*milliseconds));
            }
            Change::Close => self.closes = true,
        }
        Ok(())
    }
}
