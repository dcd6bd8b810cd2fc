//! What a side does with octets from its peer: the tests before the table of the automaton, and the table, an SaPDU at a time.

ghost use Rattle.std.specs.Prelude.{◌≡◌};
ghost use Rattle.sapdu.specs.Spelling.{Au1, Au2, Au3, Ar, Dt};
ghost use Rattle.sapdu.specs.SpellingLaws.{Fits};
ghost use Rattle.sapdu.specs.Messages.{IsMessage};
ghost use Rattle.sapdu.specs.Reading.{view};
ghost use Rattle.safety_automaton.specs.Keys.{key_at};
ghost use Rattle.safety_automaton.specs.Safety.{no_keys, Received, step, row, released_by_peer};
ghost use Rattle.safety_automaton.specs.Rules.{IsOpen};
ghost use Rattle.safety_automaton.specs.Kept.{DoesSafetyStep};

use super::Safe;
use crate::control_pdu::ControlPdu;
use crate::deed::SafeDeed;
use crate::key_finder::KeyFinder;
use crate::phase::{Phase, Session, Stage};
use crate::reaction::Reaction;
use crate::text::{FEATURE, ar_text, au2_text, au3_text, message_text};
use er_base::{Cause, EtcsNumber, Moment, Release};
use sapdu::SaPdu;
use session_keys::Kmac;

impl Safe {
    // Octets from the peer, at a side that isn't released.
    pub(super) fn receive_octets<'o, K: KeyFinder>(
        &mut self,
        keys: &K,
        now: Moment,
        octets: &'o [u8],
    ) -> Reaction<'o>
        requires { IsOpen self.old.safety.phase }
        ensures { DoesSafetyStep (step (key_at (K.entries keys.now) now) self.old.safety (Received octets.now)) self.new result }
    {
        let Ok((pdu, flag)) = sapdu::read(octets) else {
            return self.release_for(Cause::Malformed);
        };
        if flag != self.role.other().flag() {
            return self.release_for(Cause::WrongDirection);
        }
        self.receive_pdu(keys, now, &pdu)
    }

    // A readable SaPDU with the peer's flag, at a side that isn't released.
    fn receive_pdu<'o, K: KeyFinder>(
        &mut self,
        keys: &K,
        now: Moment,
        pdu: &SaPdu<'o>,
    ) -> Reaction<'o>
        requires { Fits (view pdu.now) }
        ensures { DoesSafetyStep (row (key_at (K.entries keys.now) now) self.old.safety self.old.safety.phase (view pdu.now)) self.new result }
    {
        match *pdu {
            SaPdu::Di { reason, sub } => self.receive_di(reason, sub),
            SaPdu::Au1 { id, feature, rb } => {
                let id = EtcsNumber::new(id);
                self.receive_au1(keys.find(id, self.me, now), id, feature, rb)
            }
            SaPdu::Au2 {
                id,
                feature,
                ra,
                mac,
            } => self.receive_au2(EtcsNumber::new(id), feature, ra, mac),
            SaPdu::Au3 { mac } => self.receive_au3(mac),
            SaPdu::Ar { mac } => self.receive_ar(mac),
            SaPdu::Dt { user, mac } => self.receive_dt(user, mac),
        }
    }

    // The peer's DI.
    fn receive_di<'o>(&mut self, reason: u8, sub: u8) -> Reaction<'o>
        ensures { DoesSafetyStep (released_by_peer self.old.safety reason sub) self.new result }
    {
        let release = Release::by_peer_di(reason, sub);
        self.set_released(release);
        Reaction {
            deed: SafeDeed::Released(release),
            sends: None,
        }
    }

    // AU1, with the KMAC that was found for it.
    fn receive_au1<'o>(
        &mut self,
        found: Option<Kmac>,
        id: EtcsNumber,
        feature: u8,
        rb: u64,
    ) -> Reaction<'o>
        ensures { DoesSafetyStep (row (λ engine rbc. found) self.old.safety self.old.safety.phase (Au1 id feature rb)) self.new result }
    {
        let Phase::WaitAu1 { ra } = self.phase else {
            return self.release_for(Cause::Unexpected);
        };
        if feature != FEATURE {
            return self.release_for(Cause::OtherFeature);
        }
        let Some(kmac) = found else {
            return self.release_for(Cause::NoKey);
        };
        let session = Session {
            peer: id,
            keys: kmac.session_keys(ra, rb),
            stage: Stage::WaitAu3 { ra, rb },
        };
        let sealed = au2_text(self.role.flag(), id, self.me, ra, rb);
        let mac = session.mac(&sealed);
        self.set_session(session, Some(&sealed), None);
        Reaction {
            deed: SafeDeed::Answered,
            sends: Some(ControlPdu::Au2 {
                id: self.me,
                ra,
                mac,
            }),
        }
    }

    // AU2.
    fn receive_au2<'o>(&mut self, id: EtcsNumber, feature: u8, ra: u64, mac: u64) -> Reaction<'o>
        ensures { DoesSafetyStep (row no_keys self.old.safety self.old.safety.phase (Au2 id feature ra mac)) self.new result }
    {
        let Phase::WaitAu2 { peer, kmac, rb } = &self.phase else {
            return self.release_for(Cause::Unexpected);
        };
        let (peer, rb) = (*peer, *rb);
        if feature != FEATURE {
            return self.release_for(Cause::OtherFeature);
        }
        if id.get() != peer.get() {
            return self.release_for(Cause::OtherResponder);
        }
        let session = Session {
            peer,
            keys: kmac.session_keys(ra, rb),
            stage: Stage::WaitAr { ra, rb },
        };
        let verified = au2_text(self.role.other().flag(), self.me, peer, ra, rb);
        if !session.verifies(&verified, mac) {
            return self.release_for(Cause::Au2MacWrong);
        }
        let sealed = au3_text(self.role.flag(), peer, ra, rb);
        let mac = session.mac(&sealed);
        self.set_session(session, Some(&sealed), Some(&verified));
        Reaction {
            deed: SafeDeed::Answered,
            sends: Some(ControlPdu::Au3 { mac }),
        }
    }

    // AU3.
    fn receive_au3<'o>(&mut self, mac: u64) -> Reaction<'o>
        ensures { DoesSafetyStep (row no_keys self.old.safety self.old.safety.phase (Au3 mac)) self.new result }
    {
        let Phase::Keyed(session) = &self.phase else {
            return self.release_for(Cause::Unexpected);
        };
        let Stage::WaitAu3 { ra, rb } = session.stage else {
            return self.release_for(Cause::Unexpected);
        };
        let verified = au3_text(self.role.other().flag(), self.me, ra, rb);
        if !session.verifies(&verified, mac) {
            return self.release_for(Cause::Au3MacWrong);
        }
        let peer = session.peer;
        let sealed = ar_text(self.role.flag(), peer);
        let mac = session.mac(&sealed);
        self.phase.connect();
        self.sealed.keep(&sealed);
        self.verified.keep(&verified);
        Reaction {
            deed: SafeDeed::Connected { peer: peer.get() },
            sends: Some(ControlPdu::Ar { mac }),
        }
    }

    // AR.
    fn receive_ar<'o>(&mut self, mac: u64) -> Reaction<'o>
        ensures { DoesSafetyStep (row no_keys self.old.safety self.old.safety.phase (Ar mac)) self.new result }
    {
        let Phase::Keyed(session) = &self.phase else {
            return self.release_for(Cause::Unexpected);
        };
        let Stage::WaitAr { .. } = session.stage else {
            return self.release_for(Cause::Unexpected);
        };
        let verified = ar_text(self.role.other().flag(), self.me);
        if !session.verifies(&verified, mac) {
            return self.release_for(Cause::ArMacWrong);
        }
        let peer = session.peer;
        self.phase.connect();
        self.sealed.clear();
        self.verified.keep(&verified);
        Reaction {
            deed: SafeDeed::Connected { peer: peer.get() },
            sends: None,
        }
    }

    // DT.
    fn receive_dt<'o>(&mut self, user: &'o [u8], mac: u64) -> Reaction<'o>
        requires { IsMessage user.now }
        ensures { DoesSafetyStep (row no_keys self.old.safety self.old.safety.phase (Dt user.now mac)) self.new result }
    {
        let Phase::Keyed(session) = &self.phase else {
            return self.release_for(Cause::Unexpected);
        };
        let Stage::Connected = session.stage else {
            return self.release_for(Cause::Unexpected);
        };
        let verified = message_text(self.role.other().flag(), self.me, user);
        if !session.verifies(&verified, mac) {
            return self.release_for(Cause::DtMacWrong);
        }
        self.sealed.clear();
        self.verified.keep(&verified);
        Reaction {
            deed: SafeDeed::Accepted(user),
            sends: None,
        }
    }
}
