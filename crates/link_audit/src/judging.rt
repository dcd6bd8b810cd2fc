//! The verdict on an item: the rules in their order.

ghost use Rattle.std.specs.Prelude.{◌≡◌, ◌<◌, [], ◌∷◌, Ok};
ghost use Rattle.sapdu.specs.Reading.{view};
ghost use Rattle.tap_model.specs.Verdicts.{side_flag, is_sapdu_expected, mac_in, receiver_of, key_rule, mac_rule, first_verdict_of, audit_verdict_on_item};
ghost use Rattle.link_audit.specs.Judging.{has_feature, has_identity};

use crate::known::Known;
use crate::read_pdu::ReadPdu;
use er_base::{EtcsNumber, Side};
use sapdu::{SaFault, SaPdu, SealedText};
use tap_model::AuditVerdict;

// The direction flag of a side.
fn flag_of(side: Side) -> bool
    ensures { result ≡ side_flag side }
{
    match side {
        Side::E => false,
        Side::R => true,
    }
}

// Whether an SaPDU is expected of a side at a place, of which 2 stands for all behind too.
fn is_expected(side: Side, place: u8, pdu: &SaPdu<'_>) -> bool
    ensures { result ≡ is_sapdu_expected side place (view pdu.now) }
{
    match (side, pdu) {
        (Side::E, SaPdu::Au1 { .. }) => place == 0,
        (Side::E, SaPdu::Au3 { .. }) => place == 1,
        (Side::R, SaPdu::Au2 { .. }) => place == 0,
        (Side::R, SaPdu::Ar { .. }) => place == 1,
        (_, SaPdu::Dt { .. }) => place >= 2,
        (_, SaPdu::Di { .. }) => true,
        _ => false,
    }
}

// Whether the safety feature is 1, where an SaPDU has one.
fn has_feature(pdu: &SaPdu<'_>) -> bool
    ensures { result ≡ has_feature (view pdu.now) }
{
    match pdu {
        SaPdu::Au1 { feature, .. } => *feature == 1,
        SaPdu::Au2 { feature, .. } => *feature == 1,
        _ => true,
    }
}

// Whether an SaPDU that names its sender names the link's.
fn has_identity(known: &Known, pdu: &SaPdu<'_>) -> bool
    ensures { result ≡ has_identity known.now (view pdu.now) }
{
    match pdu {
        SaPdu::Au1 { id, .. } => *id == known.engine.get(),
        SaPdu::Au2 { id, .. } => *id == known.rbc.get(),
        _ => true,
    }
}

// The MAC of an SaPDU that has one.
fn mac_in(pdu: &SaPdu<'_>) -> Option<u64>
    ensures { result ≡ mac_in (view pdu.now) }
{
    match pdu {
        SaPdu::Au1 { .. } | SaPdu::Di { .. } => None,
        SaPdu::Au2 { mac, .. } => Some(*mac),
        SaPdu::Au3 { mac } => Some(*mac),
        SaPdu::Ar { mac } => Some(*mac),
        SaPdu::Dt { mac, .. } => Some(*mac),
    }
}

// The number of the end to which a side sends.
fn receiver_of(known: &Known, side: Side) -> EtcsNumber
    ensures { result ≡ receiver_of known.now side }
{
    match side {
        Side::E => known.rbc,
        Side::R => known.engine,
    }
}

// The verdict by the MAC alone, where an SaPDU has one.
fn judge_mac(known: &Known, side: Side, read: &ReadPdu<'_>) -> AuditVerdict
    ensures { result
        ≡ first_verdict_of (key_rule known.now.session (mac_in read.now.0)
        ∷ mac_rule known.now side read.now.0 read.now.1 known.now.session (mac_in read.now.0) ∷ []) }
{
    let Some(mac) = mac_in(&read.pdu) else {
        return AuditVerdict::Good;
    };
    let Some(session) = &known.session else {
        return AuditVerdict::NoKey;
    };
    let receiver = receiver_of(known, side).get();
    let text = SealedText::new(&read.pdu, read.flag, receiver, session.ra, session.rb);
    if mac != session.keys.mac(text.octets()) {
        return AuditVerdict::Mac;
    }
    AuditVerdict::Good
}

// The verdict on an SaPDU.
#[tactic(auto, unfolding(tap_model::specs::Verdicts::audit_verdict_on_item))]
fn judge_pdu(known: &Known, side: Side, place: u8, read: &ReadPdu<'_>) -> AuditVerdict
    ensures { result ≡ audit_verdict_on_item known.now side place (Ok read.now) }
{
    if read.flag != flag_of(side) {
        return AuditVerdict::Flag;
    }
    if !is_expected(side, place, &read.pdu) {
        return AuditVerdict::Unexpected;
    }
    if !has_feature(&read.pdu) {
        return AuditVerdict::Feature;
    }
    if !has_identity(known, &read.pdu) {
        return AuditVerdict::Identity;
    }
    judge_mac(known, side, read)
}

/// The verdict on what an item at this place is read as.
#[tactic(auto, unfolding(tap_model::specs::Verdicts::audit_verdict_on_item))]
pub fn judge(
    known: &Known,
    side: Side,
    place: u8,
    read: &Result<ReadPdu<'_>, SaFault>,
) -> AuditVerdict
    ensures { result ≡ audit_verdict_on_item known.now side place read.now }
{
    match read {
        Ok(pdu) => judge_pdu(known, side, place, pdu),
        Err(_) => AuditVerdict::Malformed,
    }
}
