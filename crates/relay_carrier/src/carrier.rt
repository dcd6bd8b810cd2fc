//! One side of a relayed connection.

ghost use Rattle.std.specs.Prelude.{◌≡◌, ◌<◌, ◌≤◌, ◌++◌, true, false, [], length, take, IfOk, OnOk, List, ℕ};
ghost use Rattle.relay_script.specs.declared.script.Script as model;
ghost use Rattle.relay_script.specs.ScriptRanges.{IsScriptInRange};
ghost use Rattle.relay_model.specs.Units.{parts_from, held_in_standing};
ghost use Rattle.relay_carrier.specs.Told.{TellsParts};
ghost use Rattle.relay_carrier.specs.Standing.{StandsBehind, TakesBehind, TakesUnit, Ends};
ghost use Rattle.relay_carrier.specs.Prompt.{NoneDelays};
ghost use Rattle.relay_carrier.specs.Counting.{within_64_bits};
ghost use Rattle.relay_model.specs.Carried.{due_behind};

use crate::came::CutOutcome;
use crate::counts::Counts;
use crate::cutter::{Cutter, MOST_OCTETS};
use crate::naming::load_of;
use crate::unit_kinds::kinds_of;
use er_base::{NoMemory, Room, Side};
use relay_script::Script;
use std::alloc::Global;
use std::marker::Model;

const FLAG: u8 = 0x7e;

/// What octets of a side came to, and when what is given for them is due.
#[derive(Clone, Copy, Debug, PartialEq, Eq)]
pub struct CarriedOctets {
    /// How many octets were taken.
    pub used: usize,
    /// What they came to.
    pub came: CutOutcome,
    /// The moment in milliseconds at which what is given for them is due; 2^64 - 1 where it would be later.
    pub due: u64,
}

/// What came from one side of a connection, as far as what is given for what follows depends on it.
#[derive(Drop)]
pub struct Carrier {
    side: Side,
    cutter: Cutter,
    counts: Counts,
    closed: bool,
    newest: u64,
}

impl Model for Carrier {
    ghost use Rattle.relay_carrier.specs.Standing.{KCarrier};

    ghost Value = { KCarrier };

    ghost view = { λ c. record { side = c.side; standing = c.cutter; counts = c.counts; closed = c.closed; newest = c.newest } };
}

// The first octets, at most as many as are cut at once.
fn at_most(octets: &[u8]) -> &[u8]
    ensures few { length result.now ≤ 4096 }
    ensures within { length result.now ≤ length octets.now }
    ensures some { 0 < length octets.now → 0 < length result.now }
    ensures begins { (n : ℕ) → n ≤ length result.now → take n result.now ≡ take n octets.now }
{
    if octets.len() > MOST_OCTETS {
        return &octets[..MOST_OCTETS];
    }
    octets
}

impl Carrier {
    /// Nothing came from this side.
    pub fn new(alloc: Global, side: Side) -> Result<Carrier, NoMemory>
        ensures stands { IfOk result (λ carrier. (script : model.Script) → StandsBehind script [] carrier) }
        ensures side { IfOk result (λ carrier. carrier.side ≡ side) }
        ensures due { IfOk result (λ carrier. carrier.newest ≡ 0) }
    {
        Ok(Carrier {
            side,
            cutter: Cutter::new(alloc)?,
            counts: Counts::new(),
            closed: false,
            newest: 0,
        })
    }

    /// The side.
    pub fn side(&self) -> Side
        ensures { result ≡ self.now.side }
    {
        self.side
    }

    /// Whether a line has closed the connection: nothing is taken then.
    pub fn is_closed(&self) -> bool
        ensures { result ≡ self.now.closed }
    {
        self.closed
    }

    // What is given is due no earlier than what was given before it.
    fn due_at(&mut self, moment: u64, delay: u64) -> u64
        ensures due { (exact : ℕ) → delay ≡ within_64_bits exact → result ≡ within_64_bits (due_behind self.old.newest moment exact) }
        ensures new { self.new ≡ record self.old { newest = result } }
    {
        let at = moment.saturating_add(delay);
        if at > self.newest {
            self.newest = at;
        }
        self.newest
    }

    /// Takes octets that came at a moment, up to and with the first that ends a unit, or a run of octets of no unit, at most 4,096 of them. `came` is
    /// then what is held no longer, a unit or octets of none, and `given` what is given for it. After want of memory the carrier is of no
    /// more use.
    pub fn take(
        &mut self,
        alloc: Global,
        script: &Script,
        moment: u64,
        octets: &[u8],
        came: &mut Room,
        given: &mut Vec<u8>,
    ) -> Result<CarriedOctets, NoMemory>
        requires range { IsScriptInRange script.now }
        requires unclosed { self.old.closed ≡ false }
        requires room { came.old.capacity ≡ 4096 }
        ensures within { IfOk result (λ taken. taken.used ≤ length octets.now) }
        ensures moves { IfOk result (λ taken. 0 < length octets.now → 0 < taken.used) }
        ensures parts { IfOk result (λ taken. TellsParts taken.came came.new.items (parts_from self.old.standing (take taken.used octets.now))) }
        ensures given { IfOk result (λ taken. TakesBehind script.now self.old self.new moment (take taken.used octets.now) given.new.items taken.due) }
        ensures newest { IfOk result (λ taken. self.new.newest ≡ taken.due) }
        // Without a line that delays, it is due by any moment that is no earlier than this one and all before.
        ensures prompt { IfOk result (λ taken. (came : List ℕ) → StandsBehind script.now came self.old → NoneDelays self.old.side script.now.lines
            → (most : ℕ) → self.old.newest ≤ most → moment ≤ most → taken.due ≤ most) }
        ensures side { OnOk result (self.new.side ≡ self.old.side) }
        ensures capacity { came.new.capacity ≡ 4096 }
    {
        relay_model::laws::units_go_on();
        relay_model::laws::loads_go_on();
        came.clear();
        given.clear();
        let piece = at_most(octets);
        let (used, what) = self.cutter.take(piece, came);
        match what {
            CutOutcome::Held => {
                let due = self.newest;
                Ok(CarriedOctets {
                    used,
                    came: what,
                    due,
                })
            }
            CutOutcome::Outside => {
                given.extend_from_slice(came.held())?;
                let due = self.due_at(moment, 0);
                Ok(CarriedOctets {
                    used,
                    came: what,
                    due,
                })
            }
            CutOutcome::Unit => {
                let due = self.unit(alloc, script, moment, came.held(), given)?;
                Ok(CarriedOctets {
                    used,
                    came: what,
                    due,
                })
            }
        }
    }

    // A unit came: `given` is what is given for it.
    fn unit(
        &mut self,
        alloc: Global,
        script: &Script,
        moment: u64,
        unit: &[u8],
        given: &mut Vec<u8>,
    ) -> Result<u64, NoMemory>
        requires range { IsScriptInRange script.now }
        requires empty { given.old.items ≡ [] }
        ensures unit { IfOk result (λ due. TakesUnit script.now self.old self.new moment unit.now given.new.items due) }
        ensures newest { IfOk result (λ due. self.new.newest ≡ due) }
        ensures side { OnOk result (self.new.side ≡ self.old.side) }
    {
        let mut framed = Vec::new(alloc);
        framed.push(FLAG)?;
        framed.extend_from_slice(unit)?;
        let kinds = kinds_of(framed.as_slice());
        self.counts.add(&kinds);
        let load = load_of(alloc, script, self.side, &kinds, &self.counts, unit)?;
        given.extend_from_slice(load.octets.as_slice())?;
        self.closed = load.closes;
        Ok(self.due_at(moment, load.delay))
    }

    /// The side ended at a moment: `came` and `given` are what was held, which is given as it is. Answers when it is due.
    pub fn end(
        &mut self,
        moment: u64,
        came: &mut Room,
        given: &mut Vec<u8>,
    ) -> Result<u64, NoMemory>
        requires unclosed { self.old.closed ≡ false }
        requires room { came.old.capacity ≡ 4096 }
        ensures came { OnOk result (came.new.items ≡ held_in_standing self.old.standing) }
        ensures given { OnOk result ((script : model.Script) → Ends script self.old given.new.items) }
        ensures due { IfOk result (λ due. due ≡ within_64_bits (due_behind self.old.newest moment 0)) }
        ensures prompt { IfOk result (λ due. (most : ℕ) → self.old.newest ≤ most → moment ≤ most → due ≤ most) }
        ensures closed { OnOk result (self.new.closed ≡ self.old.closed) }
        ensures capacity { came.new.capacity ≡ 4096 }
    {
        came.clear();
        given.clear();
        self.cutter.end(came);
        given.extend_from_slice(came.held())?;
        Ok(self.due_at(moment, 0))
    }
}
