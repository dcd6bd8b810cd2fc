//! An SaPDU written as octets.

ghost use Rattle.std.specs.Prelude.{◌≡◌, length};
ghost use Rattle.er_base.specs.Stored.{HasRoom, Appends};
ghost use Rattle.sapdu.specs.Spelling.{spelling};
ghost use Rattle.sapdu.specs.SpellingLaws.{HasUserOctets, HasNumber};
ghost use Rattle.sapdu.specs.Reading.{view};

use crate::pdu::SaPdu;
use er_base::{Room, eight_of, three_of};

/// Appends the octets that spell the SaPDU with this direction flag, true from the responder.
///
/// User octets are 1 to 1,023, an ETCS number is below 2^24, and there is room for the octets.
pub fn write_into(pdu: &SaPdu, flag: bool, out: &mut Room)
    requires user { HasUserOctets (view pdu.now) }
    requires number { HasNumber (view pdu.now) }
    requires room { HasRoom out.old (length (spelling (view pdu.now) flag)) }
    ensures { Appends out.old out.new (spelling (view pdu.now) flag) }
{
    out.put(&[pdu.kind().header(flag)]);
    match *pdu {
        SaPdu::Au1 { id, feature, rb } => {
            out.put(&three_of(id));
            out.put(&[feature]);
            out.put(&eight_of(rb));
        }
        SaPdu::Au2 {
            id,
            feature,
            ra,
            mac,
        } => {
            out.put(&three_of(id));
            out.put(&[feature]);
            out.put(&eight_of(ra));
            out.put(&eight_of(mac));
        }
        SaPdu::Au3 { mac } | SaPdu::Ar { mac } => out.put(&eight_of(mac)),
        SaPdu::Dt { user, mac } => {
            out.put(user);
            out.put(&eight_of(mac));
        }
        SaPdu::Di { reason, sub } => out.put(&[reason, sub]),
    }
}
