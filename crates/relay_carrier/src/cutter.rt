//! Cuts what comes from a side into units and other octets.

ghost use Rattle.std.specs.Prelude.{◌≡◌, ◌<◌, ◌≤◌, ◌++◌, true, [], length, take, IfOk};
ghost use Rattle.relay_carrier.specs.declared.came.CutOutcome.TheVariants as brought;
ghost use Rattle.relay_model.specs.Units.{Unbegun, Overlong, turn_to, unit_turn, standing_from, parts_from, held_in_standing};
ghost use Rattle.relay_carrier.specs.Cutting.{is_holding};
ghost use Rattle.relay_carrier.specs.Told.{parts_told, TellsParts};

use crate::came::CutOutcome;
use crate::stage::Stage;
use er_base::{NoMemory, Room};
use memchr::memchr;
use std::alloc::Global;
use std::marker::Model;

const FLAG: u8 = 0x7e;

/// The most octets of a unit, and of what is cut at once.
pub const MOST_OCTETS: usize = 4_096;

/// Cuts what comes from a side. A contract sees where the side stands.
#[derive(Drop)]
pub struct Cutter {
    stage: Stage,
    // Whether an octet other than a flag stands behind the newest flag.
    begun: bool,
    held: Room,
}

impl Model for Cutter {
    ghost use Rattle.relay_model.specs.Units.{Standing};
    ghost use Rattle.relay_carrier.specs.Cutting.{standing_kept, KeepsWell};

    ghost Value = { Standing };

    ghost view = { λ c. standing_kept c.stage c.held.items c.begun };

    ghost invariant = { λ c. KeepsWell c.stage c.held c.begun };
}

// Octets are held no longer, and are added to `came`.
fn pass(held: &mut Room, came: &mut Room)
    requires room { length held.old.items ≤ came.old.capacity }
    requires empty { came.old.items ≡ [] }
    ensures passed { came.new.items ≡ held.old.items }
    ensures none { held.new.items ≡ [] }
    ensures capacity { held.new.capacity ≡ held.old.capacity }
    ensures as_large { came.new.capacity ≡ came.old.capacity }
{
    came.put(held.held());
    held.clear();
}

impl Cutter {
    /// Nothing came.
    pub fn new(alloc: Global) -> Result<Cutter, NoMemory>
        ensures { IfOk result (λ cutter. cutter ≡ Unbegun) }
    {
        Ok(Cutter {
            stage: Stage::Unbegun,
            begun: false,
            held: Room::with_capacity(alloc, MOST_OCTETS)?,
        })
    }

    /// Takes octets up to and with the first that ends a unit, or a run of octets of no unit: how many, and what they came to. The octets that are held
    /// no longer are added to `came`.
    pub fn take(&mut self, octets: &[u8], came: &mut Room) -> (usize, CutOutcome)
        requires room { came.old.capacity ≡ 4096 }
        requires empty { came.old.items ≡ [] }
        requires few { length octets.now ≤ 4096 }
        ensures within { result.0 ≤ length octets.now }
        ensures moves { 0 < length octets.now → 0 < result.0 }
        ensures stands { self.new ≡ standing_from self.old (take result.0 octets.now) }
        ensures parts { TellsParts result.1 came.new.items (parts_from self.old (take result.0 octets.now)) }
        ensures capacity { came.new.capacity ≡ 4096 }
    {
        match self.stage {
            Stage::Unbegun => self.take_before(octets, came),
            Stage::Holding => self.take_held(octets, came),
            Stage::Overlong => self.take_behind(octets, came),
        }
    }

    // Before the first flag.
    fn take_before(&mut self, octets: &[u8], came: &mut Room) -> (usize, CutOutcome)
        requires stage { self.old ≡ Unbegun }
        requires room { came.old.capacity ≡ 4096 }
        requires empty { came.old.items ≡ [] }
        requires few { length octets.now ≤ 4096 }
        ensures within { result.0 ≤ length octets.now }
        ensures moves { 0 < length octets.now → 0 < result.0 }
        ensures stands { self.new ≡ standing_from self.old (take result.0 octets.now) }
        ensures parts { TellsParts result.1 came.new.items (parts_from self.old (take result.0 octets.now)) }
        ensures capacity { came.new.capacity ≡ 4096 }
    {
        let Some(place) = memchr(FLAG, octets) else {
            came.put(octets);
            return (octets.len(), CutOutcome::Outside);
        };
        if place == 0 {
            self.stage = Stage::Holding;
            return self.take_held(octets, came);
        }
        came.put(&octets[..place]);
        (place, CutOutcome::Outside)
    }

    // Where octets are held.
    fn take_held(&mut self, octets: &[u8], came: &mut Room) -> (usize, CutOutcome)
        requires stage { is_holding self.old ≡ true }
        requires room { came.old.capacity ≡ 4096 }
        requires empty { came.old.items ≡ [] }
        ensures within { result.0 ≤ length octets.now }
        ensures moves { 0 < length octets.now → 0 < result.0 }
        ensures stands { self.new ≡ standing_from self.old (take result.0 octets.now) }
        ensures parts { TellsParts result.1 came.new.items (parts_from self.old (take result.0 octets.now)) }
        ensures capacity { came.new.capacity ≡ 4096 }
    {
        for (place, octet) in octets.iter().enumerate() {
            match self.hold(*octet, came) {
                CutOutcome::Held => {}
                other => return (place + 1, other),
            }
        }
        (octets.len(), CutOutcome::Held)
    }

    // Behind too many octets, up to the next flag.
    fn take_behind(&mut self, octets: &[u8], came: &mut Room) -> (usize, CutOutcome)
        requires stage { self.old ≡ Overlong }
        requires room { came.old.capacity ≡ 4096 }
        requires empty { came.old.items ≡ [] }
        requires few { length octets.now ≤ 4096 }
        ensures within { result.0 ≤ length octets.now }
        ensures moves { 0 < length octets.now → 0 < result.0 }
        ensures stands { self.new ≡ standing_from self.old (take result.0 octets.now) }
        ensures parts { TellsParts result.1 came.new.items (parts_from self.old (take result.0 octets.now)) }
        ensures capacity { came.new.capacity ≡ 4096 }
    {
        let Some(place) = memchr(FLAG, octets) else {
            came.put(octets);
            return (octets.len(), CutOutcome::Outside);
        };
        came.put(&octets[..place + 1]);
        self.stage = Stage::Holding;
        (place + 1, CutOutcome::Outside)
    }

    // An octet more, where octets are held.
    fn hold(&mut self, octet: u8, came: &mut Room) -> CutOutcome
        requires stage { is_holding self.old ≡ true }
        requires room { came.old.capacity ≡ 4096 }
        requires empty { came.old.items ≡ [] }
        ensures turn { unit_turn self.old octet ≡ turn_to self.new (parts_told result came.new.items) }
        ensures still { result ≡ brought.Held → is_holding self.new ≡ true }
        ensures none { result ≡ brought.Held → came.new.items ≡ [] }
        ensures capacity { came.new.capacity ≡ 4096 }
    {
        self.held.put(&[octet]);
        if octet == FLAG && self.begun {
            pass(&mut self.held, came);
            self.begun = false;
            return CutOutcome::Unit;
        }
        if self.held.free() == 0 {
            pass(&mut self.held, came);
            self.begun = false;
            self.stage = Stage::Overlong;
            return CutOutcome::Outside;
        }
        self.begun = octet != FLAG;
        CutOutcome::Held
    }

    /// The side ended: what is held is added to `came`.
    pub fn end(&mut self, came: &mut Room)
        requires room { came.old.capacity ≡ 4096 }
        requires empty { came.old.items ≡ [] }
        ensures came { came.new.items ≡ held_in_standing self.old }
        ensures capacity { came.new.capacity ≡ 4096 }
    {
        pass(&mut self.held, came);
        self.begun = false;
    }
}
