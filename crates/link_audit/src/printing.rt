//! The line of an item.

ghost use Rattle.std.specs.Prelude.{◌≡◌, ◌++◌, [], ◌∷◌, Bool, Ok, codes, OnOk};
ghost use Rattle.std.specs.Fmt.{decimal};
ghost use Rattle.er_base.specs.Hexadecimal.{hex_of};
ghost use Rattle.er_base.specs.LineTexts.{line_text};
ghost use Rattle.er_base.specs.Sides.{side_word};
ghost use Rattle.sapdu.specs.Reading.{view};
ghost use Rattle.tap_model.specs.VerdictWords.{verdict_word};
ghost use Rattle.tap_model.specs.Texts.{sapdu_kind_word, item_words};
ghost use Rattle.link_audit.specs.Counts.{told_words};

use crate::digits::put_digits;
use crate::read_pdu::ReadPdu;
use crate::told::Told;
use er_base::PrintedWord::{Decimal, Plain};
use er_base::{NoMemory, Side, decimal_word, put_line};
use sapdu::{SaFault, SaPdu};
use tap_model::AuditVerdict;

// The word of a kind.
fn kind_word(pdu: &SaPdu<'_>) -> &'static [u8]
    ensures { result.now ≡ sapdu_kind_word (view pdu.now) }
{
    match pdu {
        SaPdu::Au1 { .. } => b"au1",
        SaPdu::Au2 { .. } => b"au2",
        SaPdu::Au3 { .. } => b"au3",
        SaPdu::Ar { .. } => b"ar",
        SaPdu::Dt { .. } => b"dt",
        SaPdu::Di { .. } => b"di",
    }
}

// Appends the line of an item without user octets.
fn put_short(
    link: u8,
    side: Side,
    kind: &[u8],
    verdict: AuditVerdict,
    out: &mut Vec<u8>,
) -> Result<(), NoMemory>
    ensures { OnOk result
        (out.new.items ≡ out.old.items ++ line_text (decimal link ∷ side_word side ∷ kind.now ∷ verdict_word verdict ∷ [])) }
{
    let words = [Plain(side.word()), Plain(kind), Plain(verdict.word())];
    put_line(&Decimal(link as u64), &words, out)
}

// Appends a word behind a space.
fn put_behind(word: &[u8], out: &mut Vec<u8>) -> Result<(), NoMemory>
    ensures { OnOk result (out.new.items ≡ out.old.items ++ (codes " " ++ word.now)) }
{
    out.push(b' ')?;
    out.extend_from_slice(word)?;
    Ok(())
}

// Appends the line of a DT.
#[tactic(auto, unfolding(er_base::specs::LineTexts::line_text, er_base::specs::LineTexts::line_end))]
fn put_data(
    link: u8,
    side: Side,
    verdict: AuditVerdict,
    user: &[u8],
    out: &mut Vec<u8>,
) -> Result<(), NoMemory>
    ensures { OnOk result
        (out.new.items ≡ out.old.items ++ line_text (decimal link ∷ side_word side ∷ codes "dt" ∷ verdict_word verdict ∷ hex_of user.now ∷ [])) }
{
    decimal_word(link as u64, out)?;
    put_behind(side.word(), out)?;
    put_behind(b"dt", out)?;
    put_behind(verdict.word(), out)?;
    out.push(b' ')?;
    put_digits(user, out)?;
    out.push(b'\n')?;
    Ok(())
}

// Appends the line of an SaPDU.
fn put_pdu(
    link: u8,
    side: Side,
    pdu: &SaPdu<'_>,
    verdict: AuditVerdict,
    out: &mut Vec<u8>,
) -> Result<(), NoMemory>
    ensures { OnOk result ((flag : Bool)
        → out.new.items ≡ out.old.items ++ line_text (item_words link side (record { read = Ok (view pdu.now, flag); verdict = verdict }))) }
{
    match pdu {
        SaPdu::Dt { user, .. } => put_data(link, side, verdict, user, out),
        _ => put_short(link, side, kind_word(pdu), verdict, out),
    }
}

/// Appends the line of an item.
pub fn put_item(
    link: u8,
    side: Side,
    read: &Result<ReadPdu<'_>, SaFault>,
    verdict: AuditVerdict,
    out: &mut Vec<u8>,
) -> Result<(), NoMemory>
    ensures { OnOk result
        (out.new.items ≡ out.old.items ++ line_text (item_words link side (record { read = read.now; verdict = verdict }))) }
{
    match read {
        Err(_) => put_short(link, side, b"-", verdict, out),
        Ok(read) => put_pdu(link, side, &read.pdu, verdict, out),
    }
}

/// Appends the line of a side's end.
pub fn put_end(link: u8, side: Side, told: &Told, out: &mut Vec<u8>) -> Result<(), NoMemory>
    ensures { OnOk result (out.new.items ≡ out.old.items ++ line_text (told_words link side told.now)) }
{
    let words = [
        Plain(side.word()),
        Plain(b"end"),
        Decimal(told.frames),
        Decimal(told.heard),
        Decimal(told.items),
        Decimal(told.left),
        Plain(told.why.word()),
    ];
    put_line(&Decimal(link as u64), &words, out)
}

/// Appends a text.
pub fn put_text(text: &[u8], out: &mut Vec<u8>) -> Result<(), NoMemory>
    ensures { OnOk result (out.new.items ≡ out.old.items ++ text.now) }
{
    out.extend_from_slice(text)?;
    Ok(())
}
