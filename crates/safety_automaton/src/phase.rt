//! Where a side stands, and what it waits for.

ghost use Rattle.std.specs.Prelude.{ℕ, ◌≡◌, ◌==◌, List, Option, option_map};
ghost use Rattle.cbc_mac.specs.Mac.{mac_of};
ghost use Rattle.safety_automaton.specs.Safety.{session_in, authenticated_peer};
ghost use Rattle.safety_automaton.specs.Views.{state_of};
ghost use Rattle.safety_automaton.specs.Kept.{phase_view, connected_of, HasNoTexts};

use crate::safe_state::SafeState;
use er_base::{EtcsNumber, Release};
use sapdu::SealedText;
use session_keys::{Kmac, SessionKeys};

/// What a side waits for once the session keys are known.
#[derive(Clone, Copy)]
pub enum Stage {
    /// A responder whose AU2 was sent, with both random numbers.
    WaitAu3 { ra: u64, rb: u64 },
    /// An initiator whose AU3 was sent, with both random numbers.
    WaitAr { ra: u64, rb: u64 },
    /// Both sides have authenticated each other.
    Connected,
}

/// Session keys that are known, with the peer with whom they are shared.
#[derive(Drop)]
pub struct Session {
    /// The peer.
    pub peer: EtcsNumber,
    /// The session keys, prepared once for all texts.
    pub keys: SessionKeys,
    /// What is waited for.
    pub stage: Stage,
}

impl Session {
    /// The MAC of a text under the session keys.
    pub fn mac(&self, text: &SealedText) -> u64
        ensures { result ≡ mac_of self.now.keys text.now }
    {
        self.keys.mac(text.octets())
    }

    /// Whether this is the MAC of a text under the session keys.
    pub fn verifies(&self, text: &SealedText, mac: u64) -> bool
        ensures { result ≡ (mac == mac_of self.now.keys text.now) }
    {
        mac == self.keys.mac(text.octets())
    }
}

/// What a side waits for, with all that it knows beside its own number and its role.
#[derive(Drop)]
pub enum Phase {
    /// An initiator before its start.
    Ready {
        peer: EtcsNumber,
        kmac: Kmac,
        rb: u64,
    },
    /// A responder before an AU1.
    WaitAu1 {
        ra: u64,
    },
    /// An initiator whose AU1 was sent.
    WaitAu2 {
        peer: EtcsNumber,
        kmac: Kmac,
        rb: u64,
    },
    /// The session keys are known.
    Keyed(Session),
    /// After a release, with the session keys where they were known.
    Released {
        release: Release,
        session: Option<SessionKeys>,
    },
}

impl Phase {
    /// Both sides have authenticated each other, if the session keys are known.
    pub fn connect(&mut self)
        ensures view { (me : ℕ) → phase_view me self.new ≡ connected_of (phase_view me self.old) }
        ensures texts { (sealed verified : Option (List ℕ)) → HasNoTexts self.old sealed verified → HasNoTexts self.new sealed verified }
    {
        match self {
            Phase::Keyed(session) => session.stage = Stage::Connected,
            _ => {}
        }
    }

    /// The phase without what is known in it.
    pub fn state(&self) -> SafeState
        ensures { (me : ℕ) → result ≡ state_of (phase_view me self.now) }
    {
        match self {
            Phase::Ready { .. } => SafeState::Ready,
            Phase::WaitAu1 { .. } => SafeState::WaitAu1,
            Phase::WaitAu2 { .. } => SafeState::WaitAu2,
            Phase::Keyed(session) => match session.stage {
                Stage::WaitAu3 { .. } => SafeState::WaitAu3,
                Stage::WaitAr { .. } => SafeState::WaitAr,
                Stage::Connected => SafeState::Connected,
            },
            Phase::Released { .. } => SafeState::Released,
        }
    }

    /// The peer, once both sides have authenticated each other, until the release.
    pub fn peer(&self) -> Option<EtcsNumber>
        ensures { (me : ℕ) → result ≡ authenticated_peer (phase_view me self.now) }
    {
        match self {
            Phase::Ready { .. } | Phase::WaitAu1 { .. } | Phase::WaitAu2 { .. } => None,
            Phase::Keyed(session) => match session.stage {
                Stage::WaitAu3 { .. } | Stage::WaitAr { .. } => None,
                Stage::Connected => Some(session.peer),
            },
            Phase::Released { .. } => None,
        }
    }

    /// The session keys, as soon as they are known.
    pub fn session(&self) -> Option<&SessionKeys>
        ensures { (me : ℕ) → option_map (λ k. k.now) result ≡ session_in (phase_view me self.now) }
    {
        match self {
            Phase::Ready { .. } | Phase::WaitAu1 { .. } | Phase::WaitAu2 { .. } => None,
            Phase::Keyed(session) => Some(&session.keys),
            Phase::Released { session, .. } => match session {
                Some(keys) => Some(keys),
                None => None,
            },
        }
    }

    /// The same, taken out of the phase.
    pub fn into_session(self) -> Option<SessionKeys>
        ensures { (me : ℕ) → result ≡ session_in (phase_view me self) }
    {
        match self {
            Phase::Ready { .. } | Phase::WaitAu1 { .. } | Phase::WaitAu2 { .. } => None,
            Phase::Keyed(session) => Some(session.keys),
            Phase::Released { session, .. } => session,
        }
    }
}
