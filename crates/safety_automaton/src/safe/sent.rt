//! What a side does at the requests of its user: the start, and a message.

ghost use Rattle.std.specs.Prelude.{◌≡◌, None, OnOk, OnErr};
ghost use Rattle.sapdu.specs.Messages.{IsMessage};
ghost use Rattle.safety_automaton.specs.Safety.{no_keys, ConnectRequest, DataRequest, step, sealed_by, octets_sent_in_outcome, flag_of};
ghost use Rattle.safety_automaton.specs.Views.{state_of};
ghost use Rattle.safety_automaton.specs.Kept.{octets_of_control_sapdu, SealsAs};
ghost use Rattle.safety_automaton.specs.declared.safe_state.SafeState.TheVariants as state;

use super::Safe;
use crate::control_pdu::ControlPdu;
use crate::deed::SealRefused;
use crate::phase::{Phase, Stage};
use crate::text::message_text;
use sapdu::is_message;
use std::mem;

impl Safe {
    // A start: the AU1 that is to be sent.
    pub(super) fn begin(&mut self) -> ControlPdu
        requires { state_of self.old.safety.phase ≡ state.Ready }
        ensures safety { self.new.safety ≡ (step no_keys self.old.safety ConnectRequest).0 }
        ensures sealed { self.new.sealed ≡ None }
        ensures verified { self.new.verified ≡ None }
        ensures sends { octets_of_control_sapdu result (flag_of self.new.safety.role) ≡ octets_sent_in_outcome (step no_keys self.old.safety ConnectRequest).1 }
    {
        // the KMAC is moved from one phase to the next, and not copied
        let before = mem::replace(&mut self.phase, Phase::WaitAu1 { ra: 0 });
        let Phase::Ready { peer, kmac, rb } = before else {
            unreachable!()
        };
        self.phase = Phase::WaitAu2 { peer, kmac, rb };
        self.sealed.clear();
        self.verified.clear();
        ControlPdu::Au1 { id: self.me, rb }
    }

    // A message of the user: the MAC of the DT that is to be sent.
    pub(super) fn seal_dt(&mut self, user: &[u8]) -> Result<u64, SealRefused>
        ensures safety { self.new.safety ≡ (step no_keys self.old.safety (DataRequest user.now)).0 }
        ensures report { SealsAs user.now (flag_of self.old.safety.role) result (step no_keys self.old.safety (DataRequest user.now)).1 }
        ensures sealed { OnOk result (self.new.sealed ≡ sealed_by (step no_keys self.old.safety (DataRequest user.now)).1) }
        ensures verified { OnOk result (self.new.verified ≡ None) }
        ensures user { OnOk result (IsMessage user.now) }
        ensures refused { OnErr result (self.new ≡ self.old) }
    {
        let session = match &self.phase {
            Phase::Released { release, .. } => return Err(SealRefused::Released(*release)),
            Phase::Keyed(session) => session,
            _ => return Err(SealRefused::NotConnected),
        };
        let Stage::Connected = session.stage else {
            return Err(SealRefused::NotConnected);
        };
        if !is_message(user) {
            return Err(SealRefused::Length(user.len()));
        }
        let sealed = message_text(self.role.flag(), session.peer, user);
        let mac = session.mac(&sealed);
        self.sealed.keep(&sealed);
        self.verified.clear();
        Ok(mac)
    }
}
