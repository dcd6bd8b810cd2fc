//! Where an end writes what goes down: an SaPDU, and then the block that carries it or another TPDU.

ghost use Rattle.std.specs.Prelude.{◌≡◌, ◌≤◌, [], None, length, false, IfOk};
ghost use Rattle.sapdu.specs.Spelling.{Di, spelling};
ghost use Rattle.safety_automaton.specs.Keys.{key_at};
ghost use Rattle.safety_automaton.specs.Safety.{no_keys, ConnectRequest, Received, DataRequest, DisconnectRequest, step, octets_sent_in_outcome};
ghost use Rattle.safety_automaton.specs.Reports.{report_of};
ghost use Rattle.safety_automaton.specs.Views.{state_of, report_view, IfAccepted};
ghost use Rattle.safety_automaton.specs.declared.safe_state.SafeState.TheVariants as state;
ghost use Rattle.t70_header.specs.Blocks.{last_block};
ghost use Rattle.x224_class2.specs.Tpdus.{octets_given};
ghost use Rattle.er_end_model.specs.Steps.{kept_safe_of_step, di_of};
ghost use Rattle.er_end.specs.KeptLayers.{upper_has_next, upper_next, upper_after_next};
ghost use Rattle.er_end.specs.Coming.{given_of_own_tpdu};

use crate::own_tpdu::OwnTpdu;
use crate::short_sapdu::ShortSapdu;
use er_base::{Moment, NoMemory, Release, Room};
use safety_automaton::{KeyFinder, Safe, SafeDeed};
use sapdu::SaPdu;
use std::alloc::Global;
use std::marker::Model;
use t70_header::begin_block;
use x224_class2::Transport;
use x224_tpdu::Tpdu;

/// Both references of this profile.
const REFERENCE: u16 = 1;

/// Room for an SaPDU, of which the longest has 1,032 octets, or for a block, of at most 1,026. Each call but [`SapduRoom::held`] writes in
/// the place of what the room held.
#[derive(Drop)]
pub struct SapduRoom {
    room: Room,
}

impl Model for SapduRoom {
    ghost use Rattle.std.specs.Prelude.{ℕ, ◌≡◌, List};

    ghost Value = { List ℕ };

    ghost view = { λ r. r.room.items };

    ghost invariant = { λ r. r.room.capacity ≡ 1032 };
}

impl SapduRoom {
    /// An empty room.
    pub fn new(alloc: Global) -> Result<SapduRoom, NoMemory>
        ensures { IfOk result (λ room. room ≡ []) }
    {
        let room = Room::with_capacity(alloc, sapdu::MOST_OCTETS)?;
        Ok(SapduRoom { room })
    }

    /// The octets that were written last.
    pub fn held(&self) -> &[u8]
        ensures { result.now ≡ self.now }
    {
        self.room.held()
    }

    // ---- SaPDUs

    /// An initiator begins: its AU1.
    pub fn start(&mut self, safe: &mut Safe) -> ShortSapdu
        requires { state_of safe.old.safety.phase ≡ state.Ready }
        ensures safe { safe.new ≡ kept_safe_of_step (step no_keys safe.old.safety ConnectRequest) }
        ensures au1 { result ≡ octets_sent_in_outcome (step no_keys safe.old.safety ConnectRequest).1 }
    {
        self.room.clear();
        safe.start(&mut self.room);
        ShortSapdu::of(self.room.held())
    }

    /// A text comes to the safety side at a moment: what it did, and its answer, if any; for a local release that is the DI.
    pub fn receive<'t, K: KeyFinder>(
        &mut self,
        safe: &mut Safe,
        keys: &K,
        now: Moment,
        text: &'t [u8],
    ) -> (SafeDeed<'t>, ShortSapdu)
        ensures safe { safe.new ≡ kept_safe_of_step (step (key_at (K.entries keys.now) now) safe.old.safety (Received text.now)) }
        ensures report { report_view result.0 ≡ report_of (step (key_at (K.entries keys.now) now) safe.old.safety (Received text.now)).1 }
        ensures answer { result.1 ≡ octets_sent_in_outcome (step (key_at (K.entries keys.now) now) safe.old.safety (Received text.now)).1 }
        ensures accepted { IfAccepted (report_view result.0) (λ user. length user ≤ 1023) }
    {
        self.room.clear();
        let deed = safe.receive(keys, now, text, &mut self.room);
        (deed, ShortSapdu::of(self.room.held()))
    }

    /// The user releases, with a sub-reason: the DI; no octets of a side that was released.
    pub fn release(&mut self, safe: &mut Safe, sub: u8) -> ShortSapdu
        ensures safe { safe.new ≡ kept_safe_of_step (step no_keys safe.old.safety (DisconnectRequest sub)) }
        ensures di { result ≡ octets_sent_in_outcome (step no_keys safe.old.safety (DisconnectRequest sub)).1 }
    {
        self.room.clear();
        safe.release(sub, &mut self.room);
        ShortSapdu::of(self.room.held())
    }

    /// The DI of a release that isn't the safety side's, with its direction flag.
    pub fn di(&mut self, safe: &Safe, why: Release) -> ShortSapdu
        ensures { result ≡ di_of why safe.now.safety }
    {
        let Release { reason, sub, .. } = why;
        self.room.clear();
        let di = SaPdu::Di { reason, sub };
        sapdu::write_into(&di, safe.role().flag(), &mut self.room);
        ShortSapdu::of(self.room.held())
    }

    /// A message is sealed: the room holds its DT, no octets where the safety side refuses it.
    pub fn seal(&mut self, safe: &mut Safe, user: &[u8])
        ensures safe { safe.old.sealed ≡ None → safe.old.verified ≡ None → safe.new ≡ kept_safe_of_step (step no_keys safe.old.safety (DataRequest user.now)) }
        ensures dt { self.new ≡ octets_sent_in_outcome (step no_keys safe.old.safety (DataRequest user.now)).1 }
        ensures most { length self.new ≤ 1032 }
    {
        self.room.clear();
        let _sent = safe.send(user, &mut self.room);
    }

    // ---- blocks

    /// The room holds a TPDU of the end's own in one block.
    pub fn write_block(&mut self, tpdu: &OwnTpdu)
        ensures block { self.new ≡ last_block (octets_given (given_of_own_tpdu tpdu.now)) }
        ensures most { length self.new ≤ 1026 }
    {
        x224_tpdu::laws::writing();
        self.room.clear();
        begin_block(&mut self.room);
        let (dst, src) = (REFERENCE, REFERENCE);
        match tpdu {
            OwnTpdu::Dr { reason, user } => {
                let (reason, user) = (*reason, user.octets());
                x224_tpdu::write_into(
                    &Tpdu::Dr {
                        dst,
                        src,
                        reason,
                        user,
                    },
                    &mut self.room,
                );
            }
            OwnTpdu::Dc => x224_tpdu::write_into(&Tpdu::Dc { dst, src }, &mut self.room),
        }
    }

    /// The room holds the next TPDU of a transport in one block: whether one was due. Where none was, the transport stays as it was.
    #[tactic(auto, unfolding(crate::specs::KeptLayers::upper_has_next, crate::specs::KeptLayers::upper_next, crate::specs::KeptLayers::upper_after_next), using(crate::proofs::Offers::none_due))]
    pub fn next_block(&mut self, transport: &mut Transport) -> bool
        ensures some { result ≡ upper_has_next transport.old }
        ensures after { transport.new ≡ upper_after_next transport.old }
        ensures none { result ≡ false → transport.new ≡ transport.old }
        ensures block { self.new ≡ last_block (upper_next transport.old) }
        ensures most { length self.new ≤ 1026 }
    {
        self.room.clear();
        begin_block(&mut self.room);
        transport.next_tpdu(&mut self.room)
    }
}
