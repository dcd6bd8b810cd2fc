//! An SaPDU read from its octets.

ghost use Rattle.std.specs.Prelude.{◌≡◌, ◌+◌, ◌≤◌, length};
ghost use Rattle.sapdu.specs.Kinds.{row_of_sapdu_kind};
ghost use Rattle.sapdu.specs.Spelling.{read_of, di_in, fault_of_length};
ghost use Rattle.sapdu.specs.Reading.{Reads, view, viewed};
ghost use Rattle.sapdu.specs.Representation.{IsBody, IsLong};
ghost use Rattle.sapdu.specs.declared.kind.SaKind.TheVariants as kind;

use crate::fault::SaFault;
use crate::kind::SaKind;
use crate::laws;
use crate::pdu::SaPdu;
use er_base::{Cursor, number_of};

/// The fault of so many octets of an SaPDU of this kind.
fn fault_of_length(kind: SaKind, found: usize) -> Option<SaFault>
    ensures { result ≡ fault_of_length (row_of_sapdu_kind kind) found }
{
    let need = kind.least();
    let max = kind.greatest();
    if found < need {
        Some(SaFault::Short { need, found })
    } else if max < found {
        Some(SaFault::Long { max, found })
    } else {
        None
    }
}

/// The AU1 with these octets behind its header.
fn au1(fields: &[u8; 12]) -> SaPdu<'static>
    ensures { IsBody kind.Au1 fields.now (view result) }
{
    let mut cursor = Cursor::new(fields);
    let id = cursor.take_u24().unwrap();
    let feature = cursor.take_u8().unwrap();
    let rb = number_of(cursor.rest().try_into().unwrap());
    SaPdu::Au1 { id, feature, rb }
}

/// The AU2 with these octets behind its header.
#[tactic(auto, unfolding(er_base::specs::Octets::eight))]
fn au2(fields: &[u8; 20]) -> SaPdu<'static>
    ensures { IsBody kind.Au2 fields.now (view result) }
{
    let mut cursor = Cursor::new(fields);
    let id = cursor.take_u24().unwrap();
    let feature = cursor.take_u8().unwrap();
    let ra = cursor.take_u64().unwrap();
    let mac = number_of(cursor.rest().try_into().unwrap());
    SaPdu::Au2 {
        id,
        feature,
        ra,
        mac,
    }
}

/// The DT with these octets behind its header.
fn dt(fields: &[u8]) -> SaPdu<'_>
    requires least { 9 ≤ length fields.now }
    requires greatest { length fields.now ≤ 1031 }
    ensures { IsBody kind.Dt fields.now (view result) }
{
    let (user, mac) = fields.split_last_chunk::<8>().unwrap();
    SaPdu::Dt {
        user,
        mac: number_of(mac),
    }
}

/// The DI with these octets behind its header.
fn di(fields: &[u8; 2]) -> SaPdu<'static>
    ensures { IsBody kind.Di fields.now (view result) }
{
    let [reason, sub] = *fields;
    SaPdu::Di { reason, sub }
}

/// The SaPDU of this kind with these octets behind its header, as many as the kind has.
fn pdu_of(kind: SaKind, fields: &[u8]) -> SaPdu<'_>
    requires { IsLong (row_of_sapdu_kind kind) (length fields.now + 1) }
    ensures { IsBody kind fields.now (view result) }
{
    match kind {
        SaKind::Au1 => au1(fields.try_into().unwrap()),
        SaKind::Au2 => au2(fields.try_into().unwrap()),
        SaKind::Au3 => SaPdu::Au3 {
            mac: number_of(fields.try_into().unwrap()),
        },
        SaKind::Ar => SaPdu::Ar {
            mac: number_of(fields.try_into().unwrap()),
        },
        SaKind::Dt => dt(fields),
        SaKind::Di => di(fields.try_into().unwrap()),
    }
}

/// The SaPDU that the octets spell and its direction flag, true where the responder sent it; or the first fault.
///
/// User octets are lent from the input.
pub fn read<'a>(octets: &'a [u8]) -> Result<(SaPdu<'a>, bool), SaFault>
    ensures spelled { Reads octets.now result }
    ensures value { viewed result ≡ read_of octets.now }
{
    // by this law what is answered is what the octets are read as
    laws::spelled_is_read();
    let found = octets.len();
    let Some((header, fields)) = octets.split_first() else {
        return Err(SaFault::Short { need: 1, found });
    };
    let Some(kind) = SaKind::with_header(*header) else {
        return Err(SaFault::Kind(*header));
    };
    if let Some(fault) = fault_of_length(kind, found) {
        return Err(fault);
    }
    let by_responder = *header % 2 == 1;
    Ok((pdu_of(kind, fields), by_responder))
}

/// The reason and sub-reason of octets that are a DI with this direction flag; None exactly where they are none.
pub fn peers_di(octets: &[u8], flag: bool) -> Option<(u8, u8)>
    ensures { result ≡ di_in octets.now flag }
{
    match octets {
        [header, reason, sub] if *header == SaKind::Di.header(flag) => Some((*reason, *sub)),
        _ => None,
    }
}
