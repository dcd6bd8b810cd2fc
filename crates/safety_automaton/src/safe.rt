//! One side of a safe connection: its calls.

ghost use Rattle.std.specs.Prelude.{◌≡◌, ◌+◌, ◌≤◌, length, option_map, None, OnOk, OnErr};
ghost use Rattle.sapdu.specs.Rooms.{HasRoomForSapdu};
ghost use Rattle.safety_automaton.specs.Keys.{key_at};
ghost use Rattle.safety_automaton.specs.Safety.{no_keys, flag_of, initiator, responder, fixed, ConnectRequest, Received, DataRequest, DisconnectRequest, Released, step, sealed_by, verified_by, octets_sent_in_outcome, session_in, authenticated_peer, releases};
ghost use Rattle.safety_automaton.specs.Reports.{kept_side_without_texts, report_of};
ghost use Rattle.safety_automaton.specs.Views.{state_of, report_view, SendsAs, IfAccepted};
ghost use Rattle.safety_automaton.specs.Laws.{IsValid};
ghost use Rattle.safety_automaton.specs.declared.safe_state.SafeState.TheVariants as state;
ghost use Rattle.er_base.specs.Stored.{Appends};
ghost use Rattle.safety_automaton.specs.Kept.{DoesSafetyStep, phase_view, stage_view, octets_of_control_sapdu, octets_if};

mod received;
mod sent;

use crate::control_pdu::ControlPdu;
use crate::deed::{SafeDeed, SealRefused};
use crate::kept_text::KeptText;
use crate::key_finder::KeyFinder;
use crate::laws;
use crate::phase::{Phase, Session, Stage};
use crate::reaction::Reaction;
use crate::role::Role;
use crate::safe_state::SafeState;
use er_base::{Cause, EtcsNumber, Moment, Release, Room};
use sapdu::{SaPdu, SealedText};
use session_keys::{Kmac, SessionKeys};
use std::marker::Model;
use std::mem;

/// One side of a safe connection (UNISIG SUBSET-037: peer entity authentication, Safe Transmission, release; octet values, the
/// order of checks and the reasons are this profile's).
///
/// In contracts it is the side of the safety model, with the texts that the last call sealed and verified. It takes no memory.
#[derive(Drop)]
pub struct Safe {
    me: EtcsNumber,
    role: Role,
    phase: Phase,
    sealed: KeptText,
    verified: KeptText,
}

impl Model for Safe {
    ghost use Rattle.safety_automaton.specs.Reports.{KeptSafe};
    ghost use Rattle.safety_automaton.specs.Kept.{phase_view, HasNoTexts};

    ghost Value = { KeptSafe };

    ghost view = { λ s. record {
      safety = record { me = s.me; role = s.role; phase = phase_view s.me s.phase };
      sealed = s.sealed;
      verified = s.verified;
    } };

    ghost invariant = { λ s. HasNoTexts s.phase s.sealed s.verified };
}

impl Safe {
    /// An initiator that is to call a peer: its own ETCS number, the peer's, their KMAC, and its random number.
    pub fn initiator(me: EtcsNumber, peer: EtcsNumber, kmac: Kmac, rb: u64) -> Safe
        ensures made { result ≡ kept_side_without_texts (initiator me peer kmac rb) }
        ensures valid { IsValid result.safety }
    {
        Safe::with_phase(me, Role::Initiator, Phase::Ready { peer, kmac, rb })
    }

    /// A responder that waits to be called: its ETCS number and its random number.
    pub fn responder(me: EtcsNumber, ra: u64) -> Safe
        ensures made { result ≡ kept_side_without_texts (responder me ra) }
        ensures valid { IsValid result.safety }
    {
        Safe::with_phase(me, Role::Responder, Phase::WaitAu1 { ra })
    }

    /// A side with fixed session keys, which is connected from the start: its ETCS number and the peer's.
    pub fn fixed(me: EtcsNumber, peer: EtcsNumber, role: Role, session: SessionKeys) -> Safe
        ensures made { result ≡ kept_side_without_texts (fixed me peer role session) }
        ensures valid { IsValid result.safety }
    {
        let session = Session {
            peer,
            keys: session,
            stage: Stage::Connected,
        };
        Safe::with_phase(me, role, Phase::Keyed(session))
    }

    /// An initiator begins: writes an AU1 to `out`.
    pub fn start(&mut self, out: &mut Room)
        requires ready { state_of self.old.safety.phase ≡ state.Ready }
        requires room { HasRoomForSapdu out.old }
        ensures safety { self.new.safety ≡ (step no_keys self.old.safety ConnectRequest).0 }
        ensures sealed { self.new.sealed ≡ None }
        ensures verified { self.new.verified ≡ None }
        ensures out { Appends out.old out.new (octets_sent_in_outcome (step no_keys self.old.safety ConnectRequest).1) }
        ensures sent { length out.new.items ≤ length out.old.items + 13 }
    {
        laws::lengths();
        let au1 = self.begin();
        self.write(&au1, out);
    }

    /// Takes octets from the peer at a moment: tells what they did, and writes the answering SaPDU to `out`, where
    /// there is one; for a local release that is the DI. An answer has at most 21 octets.
    pub fn receive<'o, K: KeyFinder>(
        &mut self,
        keys: &K,
        now: Moment,
        octets: &'o [u8],
        out: &mut Room,
    ) -> SafeDeed<'o>
        requires room { HasRoomForSapdu out.old }
        ensures safety { self.new.safety ≡ (step (key_at (K.entries keys.now) now) self.old.safety (Received octets.now)).0 }
        ensures report { report_view result ≡ report_of (step (key_at (K.entries keys.now) now) self.old.safety (Received octets.now)).1 }
        ensures sealed { self.new.sealed ≡ sealed_by (step (key_at (K.entries keys.now) now) self.old.safety (Received octets.now)).1 }
        ensures verified { self.new.verified ≡ verified_by (step (key_at (K.entries keys.now) now) self.old.safety (Received octets.now)).1 }
        ensures out { Appends out.old out.new (octets_sent_in_outcome (step (key_at (K.entries keys.now) now) self.old.safety (Received octets.now)).1) }
        ensures sent { length out.new.items ≤ length out.old.items + 21 }
        ensures accepted { IfAccepted (report_view result) (λ user. length user ≤ 1023) }
        ensures inert { state_of self.old.safety.phase ≡ state.Released → (self.new ≡ self.old) × (out.new ≡ out.old) }
    {
        laws::lengths();
        if let Phase::Released { .. } = self.phase {
            return SafeDeed::Ignored;
        }
        let Reaction { deed, sends } = self.receive_octets(keys, now, octets);
        self.write_if(&sends, out);
        deed
    }

    /// Sends user octets, 1 to 1,023 of them: seals them, and writes the DT to `out`. A refused send changes nothing.
    pub fn send(&mut self, user: &[u8], out: &mut Room) -> Result<(), SealRefused>
        requires room { HasRoomForSapdu out.old }
        ensures safety { self.new.safety ≡ (step no_keys self.old.safety (DataRequest user.now)).0 }
        ensures report { SendsAs result (step no_keys self.old.safety (DataRequest user.now)).1 }
        ensures out { Appends out.old out.new (octets_sent_in_outcome (step no_keys self.old.safety (DataRequest user.now)).1) }
        ensures sealed { OnOk result (self.new.sealed ≡ sealed_by (step no_keys self.old.safety (DataRequest user.now)).1) }
        ensures verified { OnOk result (self.new.verified ≡ None) }
        ensures refused { OnErr result ((self.new ≡ self.old) × (out.new ≡ out.old)) }
        ensures sent { length out.new.items ≤ length out.old.items + 1032 }
    {
        laws::lengths();
        let mac = self.seal_dt(user)?;
        sapdu::laws::lengths_of_spellings();
        sapdu::write_into(&SaPdu::Dt { user, mac }, self.role.flag(), out);
        Ok(())
    }

    /// The user releases, with a sub-reason: writes a DI to `out`. A released side does nothing.
    pub fn release(&mut self, sub: u8, out: &mut Room)
        requires room { HasRoomForSapdu out.old }
        ensures safety { self.new.safety ≡ (step no_keys self.old.safety (DisconnectRequest sub)).0 }
        ensures sealed { self.new.sealed ≡ None }
        ensures verified { self.new.verified ≡ None }
        ensures out { Appends out.old out.new (octets_sent_in_outcome (step no_keys self.old.safety (DisconnectRequest sub)).1) }
        ensures sent { length out.new.items ≤ length out.old.items + 3 }
        ensures inert { state_of self.old.safety.phase ≡ state.Released → (self.new ≡ self.old) × (out.new ≡ out.old) }
    {
        if let Phase::Released { .. } = self.phase {
            return;
        }
        let Reaction { sends, .. } = self.release_for(Cause::User { sub });
        self.write_if(&sends, out);
    }

    /// Forgets the texts that the last call sealed and verified, as before an event of its owner in which this side has no call.
    pub fn forget(&mut self)
        ensures { self.new ≡ kept_side_without_texts self.old.safety }
    {
        self.sealed.clear();
        self.verified.clear();
    }

    /// Which end of the connection this side is.
    pub fn role(&self) -> Role
        ensures { result ≡ self.now.safety.role }
    {
        self.role
    }

    /// The own ETCS number.
    pub fn me(&self) -> EtcsNumber
        ensures { result ≡ self.now.safety.me }
    {
        self.me
    }

    /// What this side waits for.
    pub fn state(&self) -> SafeState
        ensures { result ≡ state_of self.now.safety.phase }
    {
        self.phase.state()
    }

    /// The peer, once both sides have authenticated each other, until the release.
    pub fn peer(&self) -> Option<EtcsNumber>
        ensures { result ≡ authenticated_peer self.now.safety.phase }
    {
        self.phase.peer()
    }

    /// The session keys, as soon as they are known, also after a release.
    pub fn session(&self) -> Option<&SessionKeys>
        ensures { option_map (λ k. k.now) result ≡ session_in self.now.safety.phase }
    {
        self.phase.session()
    }

    /// The text, unpadded, that the last call sealed for sending.
    pub fn sealed(&self) -> Option<&[u8]>
        ensures { option_map (λ t. t.now) result ≡ self.now.sealed }
    {
        self.sealed.octets()
    }

    /// The text, unpadded, whose MAC verified in the last call.
    pub fn verified(&self) -> Option<&[u8]>
        ensures { option_map (λ t. t.now) result ≡ self.now.verified }
    {
        self.verified.octets()
    }

    // A side that was just made.
    fn with_phase(me: EtcsNumber, role: Role, phase: Phase) -> Safe
        ensures { result ≡ kept_side_without_texts (record { me = me; role = role; phase = phase_view me phase }) }
    {
        Safe {
            me,
            role,
            phase,
            sealed: KeptText::none(),
            verified: KeptText::none(),
        }
    }

    // The session keys are known, in a call that sealed and verified these texts.
    fn set_session(
        &mut self,
        session: Session,
        sealed: Option<&SealedText>,
        verified: Option<&SealedText>,
    )
        ensures safety { self.new.safety ≡ record self.old.safety { phase = stage_view self.old.safety.me session.peer session.keys session.stage } }
        ensures sealed { self.new.sealed ≡ option_map (λ t. t.now) sealed.entry }
        ensures verified { self.new.verified ≡ option_map (λ t. t.now) verified.entry }
    {
        self.phase = Phase::Keyed(session);
        self.sealed.keep_if(sealed);
        self.verified.keep_if(verified);
    }

    // Ends the connection; the session keys stay.
    fn set_released(&mut self, release: Release)
        ensures { self.new ≡ kept_side_without_texts (record self.old.safety { phase = Released release (session_in self.old.safety.phase) }) }
    {
        // the session keys are moved from one phase to the next, and not copied
        let before = mem::replace(
            &mut self.phase,
            Phase::Released {
                release,
                session: None,
            },
        );
        self.phase = Phase::Released {
            release,
            session: before.into_session(),
        };
        self.sealed.clear();
        self.verified.clear();
    }

    // Writes an SaPDU to the peer.
    fn write(&self, pdu: &ControlPdu, out: &mut Room)
        requires { HasRoomForSapdu out.old }
        ensures { Appends out.old out.new (octets_of_control_sapdu pdu.now (flag_of self.now.safety.role)) }
    {
        sapdu::laws::lengths_of_spellings();
        sapdu::write_into(&pdu.pdu(), self.role.flag(), out);
    }

    // The same of an SaPDU, where there is one.
    fn write_if(&self, pdu: &Option<ControlPdu>, out: &mut Room)
        requires { HasRoomForSapdu out.old }
        ensures { Appends out.old out.new (octets_if pdu.now (flag_of self.now.safety.role)) }
    {
        match pdu {
            Some(pdu) => self.write(pdu, out),
            None => {}
        }
    }

    // Releases for a cause, and tells the peer by a DI.
    fn release_for<'o>(&mut self, cause: Cause) -> Reaction<'o>
        ensures { DoesSafetyStep (releases self.old.safety cause) self.new result }
    {
        let release = cause.release();
        let Release { reason, sub, .. } = release;
        self.set_released(release);
        Reaction {
            deed: SafeDeed::Released(release),
            sends: Some(ControlPdu::Di { reason, sub }),
        }
    }
}
