//! An end, and what a program that embeds it has beside it.

ghost use Rattle.std.specs.Prelude.{◌≡◌, ◌≤◌, ◌<◌, ◌∷◌, [], length, take, IfOk};
ghost use Rattle.er_settings.specs.Making.{usual_settings};
ghost use Rattle.safety_automaton.specs.Keys.{key_at};
ghost use Rattle.er_end_model.specs.Ends.{Answer, Call, Come, Opening, Send, Start, Take};
ghost use Rattle.er_end.specs.KeptEnds.{kept_opened};
ghost use Rattle.er_end.specs.Standing.{IsAllowed};
ghost use Rattle.embedded_end.specs.Sides.{IsSideOf, SideDid, SideHeard};

use er_end::{End, EtcsNumber, Kmac, Moment, NoMemory, Settings};
use er_end_promises::laws::calls_in_turn;
use key_store::KeyStore;
use std::alloc::Global;

/// The ETCS number of the engine.
pub const ENGINE: u32 = 5;

/// The ETCS number of the radio block centre.
pub const CENTRE: u32 = 9;

/// An end, the octets that are to go to the line and to its user, and the peer's number once it is connected. An end is large, so it stands
/// on the heap.
#[derive(Drop)]
pub struct Side {
    end: Box<End>,
    pub to_line: Vec<u8>,
    pub to_user: Vec<u8>,
    pub peer: Option<u32>,
}

impl Side {
    /// A radio block centre: its end waits for a call.
    pub fn centre(alloc: Global, random: u64, now: Moment) -> Result<Side, NoMemory>
        ensures { IfOk result (λ side. IsSideOf (Answer usual_settings 9 random now) side) }
    {
        let me = EtcsNumber::new(CENTRE);
        let end = End::answer(alloc, &Settings::usual(), me, random, now)?;
        Side::new(alloc, end)
    }

    /// An engine: its end is to call the radio block centre.
    pub fn engine(alloc: Global, kmac: Kmac, random: u64, now: Moment) -> Result<Side, NoMemory>
        ensures { IfOk result (λ side. IsSideOf (Call usual_settings 5 9 kmac random now) side) }
    {
        let settings = Settings::usual();
        let (me, peer) = (EtcsNumber::new(ENGINE), EtcsNumber::new(CENTRE));
        let end = End::call(alloc, &settings, me, peer, kmac, random, now)?;
        Side::new(alloc, end)
    }

    fn new(alloc: Global, end: End) -> Result<Side, NoMemory>
        ensures { (opening : Opening) → IsAllowed opening → end ≡ kept_opened opening → IfOk result (λ side. IsSideOf opening side) }
    {
        Ok(Side {
            end: Box::new(alloc, end)?,
            to_line: Vec::new(alloc),
            to_user: Vec::new(alloc),
            peer: None,
        })
    }

    /// An engine's end begins.
    pub fn start(&mut self, now: Moment) -> Result<(), NoMemory>
        ensures { IfOk result (λ _. SideDid (record { now = now; event = Start } ∷ []) self.old self.new) }
    {
        calls_in_turn();
        let deeds = self.end.start(now);
        self.to_line.extend_from_slice(deeds.out)?;
        Ok(())
    }

    /// Octets came from the line, and go to the end frame by frame. What it accepts of them its user gets, in order.
    pub fn receive(&mut self, keys: &KeyStore, now: Moment, octets: &[u8]) -> Result<(), NoMemory>
        ensures { IfOk result (λ _. SideHeard octets.now self.old self.new) }
    {
        calls_in_turn();
        let mut rest = octets;
        while !rest.is_empty() {
            let used = self.hear(keys, now, rest)?;
            self.take(now)?;
            rest = &rest[used..];
        }
        Ok(())
    }

    // Octets up to the first that closes a frame: how many these are.
    fn hear(&mut self, keys: &KeyStore, now: Moment, octets: &[u8]) -> Result<usize, NoMemory>
        ensures within { IfOk result (λ used. used ≤ length octets.now) }
        ensures moves { 0 < length octets.now → IfOk result (λ used. 0 < used) }
        ensures heard { IfOk result (λ used. SideHeard (take used octets.now) self.old self.new) }
    {
        calls_in_turn();
        let (used, deeds) = self.end.octets(keys, now, octets);
        self.peer = self.peer.or(deeds.connected);
        self.to_line.extend_from_slice(deeds.out)?;
        Ok(used)
    }

    // The message that waits, where one does, goes to the user.
    fn take(&mut self, now: Moment) -> Result<(), NoMemory>
        ensures { IfOk result (λ _. SideHeard [] self.old self.new) }
    {
        calls_in_turn();
        if let Some(taken) = self.end.take(now) {
            self.to_user.extend_from_slice(taken.text)?;
            self.to_line.extend_from_slice(taken.out)?;
        }
        Ok(())
    }

    /// The user sends a message; one that is refused isn't sent.
    pub fn send(&mut self, now: Moment, message: &[u8]) -> Result<(), NoMemory>
        ensures { IfOk result (λ _. SideDid (record { now = now; event = Send message.now } ∷ []) self.old self.new) }
    {
        calls_in_turn();
        if let Ok(deeds) = self.end.send(now, message) {
            self.to_line.extend_from_slice(deeds.out)?;
        }
        Ok(())
    }
}
