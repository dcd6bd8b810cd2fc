//! What is kept of all that came at a link.

ghost use Rattle.std.specs.Prelude.{◌≡◌, [], false, not, List, OnOk};
ghost use Rattle.std.specs.List.{list_any};
ghost use Rattle.safety_pair_laws.specs.Facts.{MarkedFact, is_sealing};
ghost use Rattle.drill_model.specs.Outcomes.{DrillOutcome};
ghost use Rattle.drill_ends.specs.Tellings.{AreTold};
ghost use Rattle.er_world.specs.Ledgers.{IsNext, HoldsLedger, KeepsSealing, Marks, TellsOne, TellsAll, mistrusts_of};

use crate::lines::{
    print_accepted, print_connected, print_frame, print_none, print_refused, print_released,
    print_taken, print_up,
};
use crate::place::Place;
use crate::sealed_pairs::SealedPairs;
use crate::waiting::Waiting;
use des_block::TripleKey;
use drill_ends::Told;
use er_base::{NoMemory, Octets, Side};
use std::alloc::Global;
use std::collections::VecDeque;

/// The pairs of session keys and text that the two ends of a link sealed, and of each end whether a text that was verified in its
/// set-up was forged. By these each later outcome is marked.
#[derive(Drop)]
pub struct Ledger {
    pairs: SealedPairs,
    e_mistrusts: bool,
    r_mistrusts: bool,
}

/// Takes the first thing that was told.
fn next_told(list: &mut VecDeque<Told>) -> Option<Told>
    ensures { IsNext list.old.items result list.new.items }
{
    list.pop_front()
}

impl Ledger {
    /// Nothing came.
    pub fn new(alloc: Global) -> Ledger
        ensures { result ≡ record { pairs = []; e_mistrusts = false; r_mistrusts = false } }
    {
        Ledger {
            pairs: SealedPairs::new(alloc),
            e_mistrusts: false,
            r_mistrusts: false,
        }
    }

    /// Whether a text that was verified in the set-up of an end was forged.
    fn mistrusts(&self, side: Side) -> bool
        ensures { result ≡ mistrusts_of self.now side }
    {
        match side {
            Side::E => self.e_mistrusts,
            Side::R => self.r_mistrusts,
        }
    }

    /// Whether a text that was verified under these session keys is none that an end of the link had sealed under them.
    fn is_forged(&self, key: TripleKey, text: Octets) -> bool
        ensures { result ≡ not (list_any (is_sealing key text) self.now.pairs) }
    {
        !self.pairs.contains(key, text.into_vec())
    }

    /// Keeps the mark of a text that was verified in the set-up of an end.
    fn mark(&mut self, side: Side, forged: bool)
        ensures { Marks side forged self.old self.new }
    {
        match side {
            Side::E => self.e_mistrusts = self.e_mistrusts || forged,
            Side::R => self.r_mistrusts = self.r_mistrusts || forged,
        }
    }

    /// Keeps that an end sealed a text under these session keys.
    fn keep(&mut self, key: TripleKey, text: Octets) -> Result<(), NoMemory>
        ensures { OnOk result (KeepsSealing (record { key = key; text = text }) self.old self.new) }
    {
        self.pairs.insert(key, text.into_vec())
    }

    /// One thing that an end did is marked, printed, kept and queued.
    fn tell(
        &mut self,
        alloc: Global,
        place: Place,
        told: Told,
        waiting: &mut Waiting,
        out: &mut Vec<u8>,
    ) -> Result<(), NoMemory>
        ensures { OnOk result (TellsOne place told self.old self.new waiting.old waiting.new out.old.items out.new.items) }
    {
        match told {
            Told::Sealed { key, text } => self.keep(key, text),
            Told::Verified { key, text } => {
                let forged = self.is_forged(key, text);
                self.mark(place.side, forged);
                Ok(())
            }
            Told::Connected { peer, key, text } => {
                let forged = self.is_forged(key, text) || self.mistrusts(place.side);
                print_connected(alloc, place, peer, forged, out)
            }
            Told::Accepted { user, key, text } => {
                let forged = self.is_forged(key, text);
                print_accepted(alloc, place, user.as_slice(), forged, out)
            }
            Told::Up => print_up(alloc, place, out),
            Told::Arrived(payload) => {
                print_accepted(alloc, place, payload.as_slice(), false, out)
            }
            Told::Took(message) => print_taken(alloc, place, message.as_slice(), out),
            Told::NothingToTake => print_none(alloc, place, out),
            Told::Refused(refused) => print_refused(alloc, place, &refused, out),
            Told::Released(release) => print_released(alloc, place, &release, out),
            Told::Frame(octets) => {
                print_frame(alloc, place, octets.as_slice(), out)?;
                waiting.push(octets)
            }
        }
    }

    /// All that an end did at one event, in its order.
    pub fn tell_all(
        &mut self,
        alloc: Global,
        place: Place,
        mut told: VecDeque<Told>,
        waiting: &mut Waiting,
        out: &mut Vec<u8>,
    ) -> Result<(), NoMemory>
        ensures { OnOk result ((outcomes : List DrillOutcome) (before : List MarkedFact) → AreTold outcomes told.items → HoldsLedger self.old before
            → TellsAll place before outcomes self.new waiting.old waiting.new out.old.items out.new.items) }
    {
        safety_pair_laws::laws::marks_grow();
        while let Some(one) = next_told(&mut told) {
            self.tell(alloc, place, one, waiting, out)?;
        }
        Ok(())
    }
}
