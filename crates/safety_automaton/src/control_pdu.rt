//! The SaPDUs that carry no user octets, as a side sends them.

ghost use Rattle.std.specs.Prelude.{◌≡◌};
ghost use Rattle.sapdu.specs.SpellingLaws.{HasUserOctets, HasNumber};
ghost use Rattle.sapdu.specs.Reading.{view};
ghost use Rattle.safety_automaton.specs.Kept.{pdu_view};

use crate::text::FEATURE;
use er_base::EtcsNumber;
use sapdu::SaPdu;

/// An SaPDU that carries no user octets, as a side sends it: one of the set-up, or the DI.
#[derive(Clone, Copy)]
pub enum ControlPdu {
    /// Begins the set-up.
    Au1 { id: EtcsNumber, rb: u64 },
    /// Answers an AU1.
    Au2 { id: EtcsNumber, ra: u64, mac: u64 },
    /// Answers an AU2.
    Au3 { mac: u64 },
    /// Answers an AU3, and ends the set-up.
    Ar { mac: u64 },
    /// Ends the connection.
    Di { reason: u8, sub: u8 },
}

impl ControlPdu {
    /// The SaPDU that it is.
    pub fn pdu(&self) -> SaPdu<'static>
        ensures same { view result ≡ pdu_view self.now }
        ensures user { HasUserOctets (view result) }
        ensures number { HasNumber (view result) }
    {
        match *self {
            ControlPdu::Au1 { id, rb } => SaPdu::Au1 {
                id: id.get(),
                feature: FEATURE,
                rb,
            },
            ControlPdu::Au2 { id, ra, mac } => SaPdu::Au2 {
                id: id.get(),
                feature: FEATURE,
                ra,
                mac,
            },
            ControlPdu::Au3 { mac } => SaPdu::Au3 { mac },
            ControlPdu::Ar { mac } => SaPdu::Ar { mac },
            ControlPdu::Di { reason, sub } => SaPdu::Di { reason, sub },
        }
    }
}
