//! The kinds of a unit.

ghost use Rattle.std.specs.Prelude.{◌≡◌, ◌∷◌, [], option_map, slice_get};
ghost use Rattle.std.specs.Option.{option_to_list};
ghost use Rattle.hdlc_frames.specs.Framing.{frames_of};
ghost use Rattle.hdlc_frames.specs.Shown.{verdict_of_octets_found};
ghost use Rattle.hdlc_frames.specs.ControlOctets.{control_of};
ghost use Rattle.x224_tpdu.specs.Spellings.{pdu_of};
ghost use Rattle.relay_model.specs.UnitKinds.{kind_of_pdu, kinds_of_information, kinds_of_control, kinds_of_body, kinds_of_found};
ghost use Rattle.relay_script.specs.declared.unit_kind.UnitKind.TheVariants.{Any};
ghost use Rattle.std.specs.Prelude.{Some};
ghost use Rattle.relay_carrier.specs.Kinds.{kinds_but_any, is_at_place};

use hdlc_frames::{Control, Deframer, Found, control};
use relay_script::UnitKind;
use x224_tpdu::{Tpdu, read};

/// The kinds of a unit but `any`: that of what is found in it, and that of the TPDU which an I frame carries.
#[derive(Clone, Copy, Debug, PartialEq, Eq)]
pub struct UnitKinds {
    link: UnitKind,
    tpdu: Option<UnitKind>,
}

// The kind of a TPDU.
fn kind_of_tpdu(tpdu: &Tpdu<'_>) -> UnitKind
    ensures { result ≡ kind_of_pdu (pdu_of tpdu.now) }
{
    match tpdu {
        Tpdu::Cr { .. } => UnitKind::Cr,
        Tpdu::Cc { .. } => UnitKind::Cc,
        Tpdu::Dr { .. } => UnitKind::Dr,
        Tpdu::Dc { .. } => UnitKind::Dc,
        Tpdu::Dt { .. } => UnitKind::Dt,
        Tpdu::Ak { .. } => UnitKind::Ak,
        Tpdu::Er { .. } => UnitKind::Er,
    }
}

// The kind of the TPDU in information that is the one block of a TPDU.
fn kind_in_block(information: &[u8]) -> Option<UnitKind>
    ensures { option_to_list result ≡ kinds_of_information information.now }
{
    let [0x01, 0x00, octets @ ..] = information else {
        return None;
    };
    match read(octets) {
        Ok(tpdu) => Some(kind_of_tpdu(&tpdu)),
        Err(_) => None,
    }
}

fn alone(link: UnitKind) -> UnitKinds
    ensures { kinds_but_any result ≡ link ∷ [] }
{
    UnitKinds { link, tpdu: None }
}

// The kinds of a control and the information behind it.
fn kinds_of_control(control: Control, information: &[u8]) -> UnitKinds
    ensures { kinds_but_any result ≡ kinds_of_control control information.now }
{
    match control {
        Control::Info { .. } => UnitKinds {
            link: UnitKind::Info,
            tpdu: kind_in_block(information),
        },
        Control::Rr { .. } => alone(UnitKind::Rr),
        Control::Rnr { .. } => alone(UnitKind::Rnr),
        Control::Rej { .. } => alone(UnitKind::Rej),
        Control::Srej { .. } => alone(UnitKind::Srej),
        Control::Sabm { .. } => alone(UnitKind::Sabm),
        Control::Sabme { .. } => alone(UnitKind::Other),
        Control::Disc { .. } => alone(UnitKind::Disc),
        Control::Ua => alone(UnitKind::Ua),
        Control::Dm => alone(UnitKind::Dm),
        Control::Frmr => alone(UnitKind::Frmr),
    }
}

// The kinds of a frame by its body.
fn kinds_of_body(body: &[u8]) -> UnitKinds
    ensures { kinds_but_any result ≡ kinds_of_body (control_of 8 body.now) }
{
    match control(body) {
        Some((control, information)) => kinds_of_control(control, information),
        None => alone(UnitKind::Other),
    }
}

// The kinds of a unit in which this is found.
fn kinds_of_found(found: &Option<Found<'_>>) -> UnitKinds
    ensures { kinds_but_any result ≡ kinds_of_found (option_map verdict_of_octets_found found.now) }
{
    match found {
        Some(Found::Frame(frame)) => kinds_of_body(frame.body),
        Some(Found::BadFcs) => alone(UnitKind::Bad),
        Some(Found::TooShort) => alone(UnitKind::Bad),
        Some(Found::TooLong) => alone(UnitKind::Bad),
        Some(Found::Aborted) => alone(UnitKind::Bad),
        None => alone(UnitKind::Bad),
    }
}

/// The kinds of a unit, from a flag and the unit behind it.
#[tactic(auto, using(crate::proofs::FirstFound::first_found))]
pub fn kinds_of(framed: &[u8]) -> UnitKinds
    ensures { kinds_but_any result ≡ kinds_of_found (slice_get (frames_of framed.now) 0) }
{
    let mut deframer = Deframer::new();
    let (_, found) = deframer.feed(framed);
    kinds_of_found(&found)
}

impl UnitKinds {
    /// Whether the unit is of the kind at a place among all kinds.
    pub fn has_at(&self, place: usize) -> bool
        ensures { result ≡ is_at_place place (Any ∷ kinds_but_any self.now) }
    {
        if place == UnitKind::Any.place() || place == self.link.place() {
            return true;
        }
        match self.tpdu {
            Some(kind) => place == kind.place(),
            None => false,
        }
    }
}
