//! A TPDU read from its octets.

ghost use Rattle.std.specs.Prelude.{◌≡◌, ◌≤◌, [], ◌∷◌, ◌++◌, length, Some, None, MatchResult, OnOk};
ghost use Rattle.er_base.specs.Octets.{two};
ghost use Rattle.x224_tpdu.specs.declared.kind.Kind.TheVariants.{Cr, Cc, Dr, Dc, Dt, Ak, Er};
ghost use Rattle.x224_tpdu.specs.Kinds.{kind_of_tpdu_code, least_user, most_user};
ghost use Rattle.x224_tpdu.specs.Faults.{rule_4, rule_5, first_of, user_fault};
ghost use Rattle.x224_tpdu.specs.Reading.{Reads};
ghost use Rattle.x224_tpdu.specs.Function.{reading};
ghost use Rattle.x224_tpdu.specs.ReadingLaws.{answer_of};
ghost use Rattle.x224_tpdu.specs.Parts.{layout_in, IsCounted, IsOfKind, HasConnectionFields, ReadsKind, ReadsBy};

use crate::fault::TpFault;
use crate::kind::{Kind, kind_named};
use crate::parameters::{check_parameters, size_named};
use crate::parts::{Parts, parts_of};
use crate::tpdu::Tpdu;

/// Reads octets as a TPDU, which lends its user data from them. Answers the TPDU exactly where the
/// octets spell it, and else the first fault in this order:
///
/// 1. `Empty`: no octet.
/// 2. `Length`: the length indicator is 0 or FF, or names more octets than follow.
/// 3. `Code`: the second octet is no code.
/// 4. `Length`: a length indicator that this kind can't have.
/// 5. `Class`: another octet than 20 in CR or CC.
/// 6. `Parameter`: the first one from the left that isn't whole or may not stand there.
/// 7. `Value`: a TPDU size outside 07 to 0D, or a number of AK above 127.
/// 8. `UserData`: too much, or none in DT.
pub fn read<'a>(octets: &'a [u8]) -> Result<Tpdu<'a>, TpFault>
    ensures exact { Reads octets.now result }
    ensures function { reading octets.now ≡ answer_of result }
{
    let parts = parts_of(octets)?;
    read_parts(&parts)
}

fn read_parts<'a>(parts: &Parts<'a>) -> Result<Tpdu<'a>, TpFault>
    requires { IsCounted (layout_in parts.now) }
    ensures { ReadsBy (kind_of_tpdu_code parts.now.code) (layout_in parts.now) result }
{
    match kind_named(parts.code) {
        None => Err(TpFault::Code(parts.code)),
        Some(Kind::Cr) => read_cr(parts),
        Some(Kind::Cc) => read_cc(parts),
        Some(Kind::Dr) => read_dr(parts),
        Some(Kind::Dc) => read_dc(parts),
        Some(Kind::Dt) => read_dt(parts),
        Some(Kind::Ak) => read_ak(parts),
        Some(Kind::Er) => read_er(parts),
    }
}

fn read_cr<'a>(parts: &Parts<'a>) -> Result<Tpdu<'a>, TpFault>
    requires { IsOfKind Cr (layout_in parts.now) }
    ensures { ReadsKind Cr (layout_in parts.now) result }
{
    let fields = connection(parts)?;
    let size = size_named(check_parameters(Kind::Cr, fields.parameters)?)?;
    check_user(Kind::Cr, parts.user)?;
    Ok(Tpdu::Cr {
        credit: parts.code % 16,
        dst: fields.dst,
        src: fields.src,
        size,
        user: parts.user,
    })
}

fn read_cc<'a>(parts: &Parts<'a>) -> Result<Tpdu<'a>, TpFault>
    requires { IsOfKind Cc (layout_in parts.now) }
    ensures { ReadsKind Cc (layout_in parts.now) result }
{
    let fields = connection(parts)?;
    let size = size_named(check_parameters(Kind::Cc, fields.parameters)?)?;
    check_user(Kind::Cc, parts.user)?;
    Ok(Tpdu::Cc {
        credit: parts.code % 16,
        dst: fields.dst,
        src: fields.src,
        size,
        user: parts.user,
    })
}

fn read_dr<'a>(parts: &Parts<'a>) -> Result<Tpdu<'a>, TpFault>
    requires { IsOfKind Dr (layout_in parts.now) }
    ensures { ReadsKind Dr (layout_in parts.now) result }
{
    let &[
        dst_high,
        dst_low,
        src_high,
        src_low,
        reason,
        ref parameters @ ..,
    ] = parts.fields
    else {
        return Err(wrong_length(parts));
    };
    check_parameters(Kind::Dr, parameters)?;
    check_user(Kind::Dr, parts.user)?;
    let dst = number(dst_high, dst_low);
    let src = number(src_high, src_low);
    Ok(Tpdu::Dr {
        dst,
        src,
        reason,
        user: parts.user,
    })
}

fn read_dc<'a>(parts: &Parts<'a>) -> Result<Tpdu<'a>, TpFault>
    requires { IsOfKind Dc (layout_in parts.now) }
    ensures { ReadsKind Dc (layout_in parts.now) result }
{
    let &[dst_high, dst_low, src_high, src_low] = parts.fields else {
        return Err(wrong_length(parts));
    };
    check_user(Kind::Dc, parts.user)?;
    Ok(Tpdu::Dc {
        dst: number(dst_high, dst_low),
        src: number(src_high, src_low),
    })
}

fn read_dt<'a>(parts: &Parts<'a>) -> Result<Tpdu<'a>, TpFault>
    requires { IsOfKind Dt (layout_in parts.now) }
    ensures { ReadsKind Dt (layout_in parts.now) result }
{
    let &[dst_high, dst_low, octet] = parts.fields else {
        return Err(wrong_length(parts));
    };
    check_user(Kind::Dt, parts.user)?;
    let dst = number(dst_high, dst_low);
    Ok(Tpdu::Dt {
        dst,
        last: octet >= 0x80,
        number: octet % 0x80,
        user: parts.user,
    })
}

fn read_ak<'a>(parts: &Parts<'a>) -> Result<Tpdu<'a>, TpFault>
    requires { IsOfKind Ak (layout_in parts.now) }
    ensures { ReadsKind Ak (layout_in parts.now) result }
{
    let &[dst_high, dst_low, octet] = parts.fields else {
        return Err(wrong_length(parts));
    };
    if octet >= 0x80 {
        return Err(TpFault::Value { code: 0x60, octet });
    }
    check_user(Kind::Ak, parts.user)?;
    Ok(Tpdu::Ak {
        credit: parts.code % 16,
        dst: number(dst_high, dst_low),
        number: octet,
    })
}

fn read_er<'a>(parts: &Parts<'a>) -> Result<Tpdu<'a>, TpFault>
    requires { IsOfKind Er (layout_in parts.now) }
    ensures { ReadsKind Er (layout_in parts.now) result }
{
    let &[dst_high, dst_low, cause, ref parameters @ ..] = parts.fields else {
        return Err(wrong_length(parts));
    };
    check_parameters(Kind::Er, parameters)?;
    check_user(Kind::Er, parts.user)?;
    Ok(Tpdu::Er {
        dst: number(dst_high, dst_low),
        cause,
    })
}

// The fields behind the code of CR or CC, the class left out.
#[derive(Clone, Copy)]
struct ConnectionFields<'a> {
    dst: u16,
    src: u16,
    parameters: &'a [u8],
}

fn connection<'a>(parts: &Parts<'a>) -> Result<ConnectionFields<'a>, TpFault>
    requires { IsCounted (layout_in parts.now) }
    ensures { MatchResult result
        (λ found. HasConnectionFields (layout_in parts.now) found.dst found.src found.parameters.now)
        (λ fault. first_of (rule_4 Cr (layout_in parts.now) ∷ rule_5 Cr (layout_in parts.now) ∷ []) ≡ Some fault) }
{
    let &[
        dst_high,
        dst_low,
        src_high,
        src_low,
        class,
        ref parameters @ ..,
    ] = parts.fields
    else {
        return Err(wrong_length(parts));
    };
    if class != 0x20 {
        return Err(TpFault::Class(class));
    }
    Ok(ConnectionFields {
        dst: number(dst_high, dst_low),
        src: number(src_high, src_low),
        parameters,
    })
}

fn number(high: u8, low: u8) -> u16
    ensures { two result ≡ high ∷ low ∷ [] }
{
    u16::from(high) * 256 + u16::from(low)
}

fn wrong_length(parts: &Parts<'_>) -> TpFault
    ensures { result ≡ TpFault.Length parts.now.li parts.now.found }
{
    TpFault::Length {
        li: parts.li,
        found: parts.found,
    }
}

fn check_user(kind: Kind, user: &[u8]) -> Result<(), TpFault>
    ensures fault { MatchResult result
        (λ _. user_fault kind user.now ≡ None)
        (λ fault. user_fault kind user.now ≡ Some fault) }
    ensures within { OnOk result ((least_user kind ≤ length user.now) × (length user.now ≤ most_user kind)) }
{
    let least = least_octets(kind);
    let max = most_octets(kind);
    let found = user.len();
    if found < least || found > max {
        return Err(TpFault::UserData { max, found });
    }
    Ok(())
}

fn least_octets(kind: Kind) -> usize
    ensures { result ≡ least_user kind }
{
    match kind {
        Kind::Dt => 1,
        _ => 0,
    }
}

fn most_octets(kind: Kind) -> usize
    ensures { result ≡ most_user kind }
{
    match kind {
        Kind::Cr | Kind::Cc => 32,
        Kind::Dr => 64,
        Kind::Dt => 1_019,
        Kind::Dc | Kind::Ak | Kind::Er => 0,
    }
}
