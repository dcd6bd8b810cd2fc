//! The kinds of SaPDU, by their message type identifier.

ghost use Rattle.std.specs.Prelude.{◌≡◌, ◌+◌};
ghost use Rattle.sapdu.specs.Kinds.{row_of_sapdu_kind, kind_with};
ghost use Rattle.sapdu.specs.Spelling.{df};

use crate::message::MOST_OCTETS;

/// A kind of SaPDU.
#[derive(Clone, Copy, Debug, PartialEq, Eq)]
pub enum SaKind {
    /// Authentication message 1.
    Au1,
    /// Authentication message 2.
    Au2,
    /// Authentication message 3.
    Au3,
    /// Authentication response.
    Ar,
    /// Data.
    Dt,
    /// Disconnect.
    Di,
}

const AU1: u8 = 0x42;

const AU2: u8 = 0x24;

const AU3: u8 = 0x06;

const AR: u8 = 0x12;

const DT: u8 = 0x0A;

const DI: u8 = 0x10;

impl SaKind {
    /// The kind of the SaPDU with this header octet, whatever its direction flag; None exactly where there is none.
    pub fn with_header(header: u8) -> Option<SaKind>
        ensures { result ≡ kind_with header }
    {
        match header - header % 2 {
            AU1 => Some(SaKind::Au1),
            AU2 => Some(SaKind::Au2),
            AU3 => Some(SaKind::Au3),
            AR => Some(SaKind::Ar),
            DT => Some(SaKind::Dt),
            DI => Some(SaKind::Di),
            _ => None,
        }
    }

    /// The header octet with this direction flag, true from the responder.
    pub fn header(self, flag: bool) -> u8
        ensures { result ≡ (row_of_sapdu_kind self).header + df flag }
    {
        let from_initiator = match self {
            SaKind::Au1 => AU1,
            SaKind::Au2 => AU2,
            SaKind::Au3 => AU3,
            SaKind::Ar => AR,
            SaKind::Dt => DT,
            SaKind::Di => DI,
        };
        if flag {
            from_initiator + 1
        } else {
            from_initiator
        }
    }

    /// The least number of octets.
    pub fn least(self) -> usize
        ensures { result ≡ (row_of_sapdu_kind self).least }
    {
        match self {
            SaKind::Au1 => 13,
            SaKind::Au2 => 21,
            SaKind::Au3 | SaKind::Ar => 9,
            SaKind::Dt => 10,
            SaKind::Di => 3,
        }
    }

    /// The greatest number of octets.
    pub fn greatest(self) -> usize
        ensures { result ≡ (row_of_sapdu_kind self).greatest }
    {
        match self {
            SaKind::Dt => MOST_OCTETS,
            other => other.least(),
        }
    }
}
