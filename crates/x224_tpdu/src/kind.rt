//! The kinds of TPDU, by their code.

ghost use Rattle.std.specs.Prelude.{◌≡◌, ◌<◌};
ghost use Rattle.x224_tpdu.specs.Kinds.{kind_of_tpdu_code};

/// The seven kinds of TPDU.
#[derive(Clone, Copy, Debug, PartialEq, Eq)]
pub enum Kind {
    Cr,
    Cc,
    Dr,
    Dc,
    Dt,
    Ak,
    Er,
}

/// The kind of the TPDU whose second octet this is.
pub fn kind_named(code: u8) -> Option<Kind>
    ensures { result ≡ kind_of_tpdu_code code }
{
    match code {
        0xE0..=0xEF => Some(Kind::Cr),
        0xD0..=0xDF => Some(Kind::Cc),
        0x80 => Some(Kind::Dr),
        0xC0 => Some(Kind::Dc),
        0xF0 => Some(Kind::Dt),
        0x60..=0x6F => Some(Kind::Ak),
        0x70 => Some(Kind::Er),
        _ => None,
    }
}
