//! The controls of balanced mode, and their octets.

ghost use Rattle.std.specs.Prelude.{◌≡◌, ◌+◌, ◌*◌, ◌<◌, Some, [], ◌∷◌};
ghost use Rattle.std.specs.Option.{IsSome};
ghost use Rattle.hdlc_frames.specs.Controls.{poll_final_value, extended_bit_of};

use arrayvec::ArrayVec;

/// What the control of a body says, in balanced mode with numbers modulo 8 or 128 (ISO/IEC 13239).
#[derive(Clone, Copy, Debug, PartialEq, Eq)]
pub enum Control {
    /// An information frame with N(S) and N(R), each below the modulo.
    Info { ns: u8, nr: u8 },
    /// Receive ready, with N(R), below the modulo.
    Rr { nr: u8 },
    /// Receive not ready, with N(R), below the modulo.
    Rnr { nr: u8 },
    /// Reject, with N(R), below the modulo.
    Rej { nr: u8 },
    /// Selective reject, with N(R), below the modulo.
    Srej { nr: u8 },
    /// Set asynchronous balanced mode, with the P bit; at modulo 8 alone.
    Sabm { poll: bool },
    /// Set asynchronous balanced mode extended, with the P bit; at modulo 128 alone.
    Sabme { poll: bool },
    /// Disconnect, with the P bit.
    Disc { poll: bool },
    /// Unnumbered acknowledgement.
    Ua,
    /// Disconnected mode.
    Dm,
    /// Frame reject.
    Frmr,
}

// The octets of controls without their numbers and their P/F bit.
pub(crate) const RR: u8 = 0x01;

pub(crate) const RNR: u8 = 0x05;

pub(crate) const REJ: u8 = 0x09;

pub(crate) const SREJ: u8 = 0x0d;

pub(crate) const SABM: u8 = 0x2f;

pub(crate) const SABME: u8 = 0x6f;

pub(crate) const DISC: u8 = 0x43;

pub(crate) const UA: u8 = 0x63;

pub(crate) const DM: u8 = 0x0f;

pub(crate) const FRMR: u8 = 0x87;

impl Control {
    ghost use Rattle.hdlc_frames.specs.Controls.{control_octets};
    ghost use Rattle.hdlc_frames.specs.Bodies.{IsBelow};

    /// The octet of this control with numbers modulo 8, below which its numbers are. The P bit of SABM and
    /// DISC is their own, that of every other control is `poll_final`. SABME has no octet here.
    pub fn octets(self, poll_final: bool) -> ArrayVec<u8, 2>
        requires numbers { IsBelow 8 self }
        requires known { IsSome (control_octets 8 self poll_final) }
        ensures { control_octets 8 self poll_final ≡ Some result.items }
    {
        let bit = bit(poll_final);
        match self {
            Control::Info { ns, nr } => one(ns * 2 + nr * 0x20 + bit),
            Control::Rr { nr } => one(RR + nr * 0x20 + bit),
            Control::Rnr { nr } => one(RNR + nr * 0x20 + bit),
            Control::Rej { nr } => one(REJ + nr * 0x20 + bit),
            Control::Srej { nr } => one(SREJ + nr * 0x20 + bit),
            Control::Sabm { poll } => one(SABM + self::bit(poll)),
            Control::Sabme { poll } => one(SABME + self::bit(poll)),
            Control::Disc { poll } => one(DISC + self::bit(poll)),
            Control::Ua => one(UA + bit),
            Control::Dm => one(DM + bit),
            Control::Frmr => one(FRMR + bit),
        }
    }

    /// The octets of this control with numbers modulo 128, below which its numbers are. The P bit of SABME
    /// and DISC is their own, that of every other control is `poll_final`. SABM has no octets here.
    pub fn octets_extended(self, poll_final: bool) -> ArrayVec<u8, 2>
        requires numbers { IsBelow 128 self }
        requires known { IsSome (control_octets 128 self poll_final) }
        ensures { control_octets 128 self poll_final ≡ Some result.items }
    {
        let bit = bit(poll_final);
        match self {
            Control::Info { ns, nr } => two(ns * 2, nr, poll_final),
            Control::Rr { nr } => two(RR, nr, poll_final),
            Control::Rnr { nr } => two(RNR, nr, poll_final),
            Control::Rej { nr } => two(REJ, nr, poll_final),
            Control::Srej { nr } => two(SREJ, nr, poll_final),
            Control::Sabm { poll } => one(SABM + self::bit(poll)),
            Control::Sabme { poll } => one(SABME + self::bit(poll)),
            Control::Disc { poll } => one(DISC + self::bit(poll)),
            Control::Ua => one(UA + bit),
            Control::Dm => one(DM + bit),
            Control::Frmr => one(FRMR + bit),
        }
    }
}

// What the P/F bit adds to the one octet of a control.
fn bit(set: bool) -> u8
    ensures { result ≡ poll_final_value set }
{
    if set { 0x10 } else { 0 }
}

// A control of one octet.
fn one(octet: u8) -> ArrayVec<u8, 2>
    ensures { result.items ≡ octet ∷ [] }
{
    let mut octets = ArrayVec::new();
    octets.push(octet);
    octets
}

// A control of two octets: its kind, or N(S), and N(R) with the P/F bit.
fn two(first: u8, nr: u8, poll_final: bool) -> ArrayVec<u8, 2>
    requires { nr < 128 }
    ensures { result.items ≡ first ∷ (nr * 2 + extended_bit_of poll_final) ∷ [] }
{
    let mut octets = ArrayVec::new();
    octets.push(first);
    octets.push(nr * 2 + poll_final as u8);
    octets
}
