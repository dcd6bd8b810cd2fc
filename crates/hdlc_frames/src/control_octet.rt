//! The control of a body read.

ghost use Rattle.std.specs.Prelude.{◌≡◌, MatchOption, option_map};
ghost use Rattle.hdlc_frames.specs.Bodies.{HasControl, HasNoControl};
ghost use Rattle.hdlc_frames.specs.ControlOctets.{
  control_of,
  control_modulo_8,
  control_modulo_128,
  control_at,
  unnumbered_at,
  extended_numbered_of,
  extended_numbered_at,
  extended_unnumbered_at,
};

use crate::controls::{Control, DISC, DM, FRMR, REJ, RNR, RR, SABM, SABME, SREJ, UA};

/// What the first octet of a body says with numbers modulo 8, and the information behind it; None where the
/// body is empty or its first octet is none of the table at modulo 8, as that of SABME. The P/F bit is left
/// out, but for SABM and DISC.
pub fn control<'a>(body: &'a [u8]) -> Option<(Control, &'a [u8])>
    ensures table { MatchOption result (HasNoControl 8 body.now) (λ r. HasControl 8 body.now r.0 r.1.now) }
    ensures value { option_map (λ r. (r.0, r.1.now)) result ≡ control_of 8 body.now }
{
    read(body)
}

/// What the first octets of a body say with numbers modulo 128, one octet for a control without a number and
/// two for any other, and the information behind them; None where the table at modulo 128 doesn't spell the
/// body, as that of SABM. The P/F bit is left out, but for SABME and DISC.
pub fn control_extended<'a>(body: &'a [u8]) -> Option<(Control, &'a [u8])>
    ensures table { MatchOption result (HasNoControl 128 body.now) (λ r. HasControl 128 body.now r.0 r.1.now) }
    ensures value { option_map (λ r. (r.0, r.1.now)) result ≡ control_of 128 body.now }
{
    read_extended(body)
}

// What the first octet of a body says at modulo 8.
fn read<'a>(body: &'a [u8]) -> Option<(Control, &'a [u8])>
    ensures { option_map (λ r. (r.0, r.1.now)) result ≡ control_modulo_8 body.now }
{
    let (first, information) = body.split_first_chunk::<1>()?;
    let kind = kind_of(first[0])?;
    Some((kind, information))
}

// What an octet says.
fn kind_of(octet: u8) -> Option<Control>
    ensures { result ≡ control_at octet }
{
    let nr = octet >> 5;
    if octet & 0x01 == 0 {
        return Some(Control::Info {
            ns: octet >> 1 & 0x07,
            nr,
        });
    }
    match octet & 0x0f {
        RR => Some(Control::Rr { nr }),
        RNR => Some(Control::Rnr { nr }),
        REJ => Some(Control::Rej { nr }),
        SREJ => Some(Control::Srej { nr }),
        _ => unnumbered(octet & 0xef, octet & 0x10 != 0),
    }
}

// What an octet without its P/F bit says at modulo 8, if it has no number.
fn unnumbered(octet: u8, poll: bool) -> Option<Control>
    ensures { result ≡ unnumbered_at octet poll }
{
    match octet {
        SABM => Some(Control::Sabm { poll }),
        DISC => Some(Control::Disc { poll }),
        UA => Some(Control::Ua),
        DM => Some(Control::Dm),
        FRMR => Some(Control::Frmr),
        _ => None,
    }
}

// What the first octets of a body say at modulo 128.
fn read_extended<'a>(body: &'a [u8]) -> Option<(Control, &'a [u8])>
    ensures { option_map (λ r. (r.0, r.1.now)) result ≡ control_modulo_128 body.now }
{
    let (first, rest) = body.split_first_chunk::<1>()?;
    if first[0] & 0x03 != 0x03 {
        return numbered_extended(first[0], rest);
    }
    let kind = unnumbered_extended(first[0] & 0xef, first[0] & 0x10 != 0)?;
    Some((kind, rest))
}

// What a body says at modulo 128 whose first octet is that of a control with N(R).
fn numbered_extended<'a>(first: u8, rest: &'a [u8]) -> Option<(Control, &'a [u8])>
    ensures { option_map (λ r. (r.0, r.1.now)) result ≡ extended_numbered_of first rest.now }
{
    let (second, information) = rest.split_first_chunk::<1>()?;
    let kind = kind_extended(first, second[0])?;
    Some((kind, information))
}

// What two octets say at modulo 128.
fn kind_extended(first: u8, second: u8) -> Option<Control>
    ensures { result ≡ extended_numbered_at first second }
{
    let nr = second >> 1;
    if first & 0x01 == 0 {
        return Some(Control::Info { ns: first >> 1, nr });
    }
    match first {
        RR => Some(Control::Rr { nr }),
        RNR => Some(Control::Rnr { nr }),
        REJ => Some(Control::Rej { nr }),
        SREJ => Some(Control::Srej { nr }),
        _ => None,
    }
}

// What an octet without its P/F bit says at modulo 128, if it has no number.
fn unnumbered_extended(octet: u8, poll: bool) -> Option<Control>
    ensures { result ≡ extended_unnumbered_at octet poll }
{
    match octet {
        SABME => Some(Control::Sabme { poll }),
        DISC => Some(Control::Disc { poll }),
        UA => Some(Control::Ua),
        DM => Some(Control::Dm),
        FRMR => Some(Control::Frmr),
        _ => None,
    }
}
