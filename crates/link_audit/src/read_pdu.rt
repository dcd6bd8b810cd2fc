//! What an item is read as.

ghost use Rattle.std.specs.Prelude.{◌≡◌};
ghost use Rattle.sapdu.specs.Spelling.{read_of};

use sapdu::{SaFault, SaPdu, read};
use std::marker::Model;

/// An SaPDU that octets spell, and its direction flag.
#[derive(Drop)]
pub struct ReadPdu<'i> {
    pub(crate) pdu: SaPdu<'i>,
    pub(crate) flag: bool,
}

impl<'i> Model for ReadPdu<'i> {
    ghost use Rattle.std.specs.Prelude.{Bool};
    ghost use Rattle.sapdu.specs.Reading as reading;
    ghost use Rattle.sapdu.specs.Spelling.{SafetyPdu};
    ghost use Rattle.sapdu.specs.SpellingLaws.{Fits};

    ghost Value = { SafetyPdu × Bool };

    ghost view = { λ r. (reading.view r.pdu, r.flag) };

    ghost invariant = { λ r. Fits (reading.view r.pdu) };
}

impl<'i> ReadPdu<'i> {
    /// What an item is read as.
    pub fn of(item: &'i [u8]) -> Result<ReadPdu<'i>, SaFault>
        ensures { result ≡ read_of item.now }
    {
        match read(item) {
            Ok((pdu, flag)) => Ok(ReadPdu { pdu, flag }),
            Err(fault) => Err(fault),
        }
    }
}
