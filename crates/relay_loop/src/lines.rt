//! The lines that a relay prints.

ghost use Rattle.std.specs.Prelude.{◌≡◌, ◌++◌, OnOk};
ghost use Rattle.relay_loop.specs.RelayLines.{received_line, given_line, open_line, side_end_line, closed_line};

use crate::stamp::Stamp;
use er_base::PrintedWord::{Decimal, Hexadecimal, Plain};
use er_base::{NoMemory, Side, put_line};

/// Appends `> MOMENT N open`.
pub(crate) fn put_open(at: Stamp, out: &mut Vec<u8>) -> Result<(), NoMemory>
    ensures { OnOk result (out.new.items ≡ out.old.items ++ open_line at.moment at.number) }
{
    let words = [Decimal(at.moment), Decimal(at.number), Plain(b"open")];
    put_line(&Plain(b">"), &words, out)
}

/// Appends `> MOMENT N S HEX`.
pub(crate) fn put_came(
    at: Stamp,
    side: Side,
    octets: &[u8],
    out: &mut Vec<u8>,
) -> Result<(), NoMemory>
    ensures { OnOk result (out.new.items ≡ out.old.items ++ received_line at.moment at.number side octets.now) }
{
    let words = [
        Decimal(at.moment),
        Decimal(at.number),
        Plain(side.word()),
        Hexadecimal(octets),
    ];
    put_line(&Plain(b">"), &words, out)
}

/// Appends `< MOMENT N S HEX`.
pub(crate) fn put_given(
    at: Stamp,
    side: Side,
    octets: &[u8],
    out: &mut Vec<u8>,
) -> Result<(), NoMemory>
    ensures { OnOk result (out.new.items ≡ out.old.items ++ given_line at.moment at.number side octets.now) }
{
    let words = [
        Decimal(at.moment),
        Decimal(at.number),
        Plain(side.word()),
        Hexadecimal(octets),
    ];
    put_line(&Plain(b"<"), &words, out)
}

/// Appends `> MOMENT N end S`.
pub(crate) fn put_end(at: Stamp, side: Side, out: &mut Vec<u8>) -> Result<(), NoMemory>
    ensures { OnOk result (out.new.items ≡ out.old.items ++ side_end_line at.moment at.number side) }
{
    let words = [
        Decimal(at.moment),
        Decimal(at.number),
        Plain(b"end"),
        Plain(side.word()),
    ];
    put_line(&Plain(b">"), &words, out)
}

/// Appends `< MOMENT N closed`.
pub(crate) fn put_closed(at: Stamp, out: &mut Vec<u8>) -> Result<(), NoMemory>
    ensures { OnOk result (out.new.items ≡ out.old.items ++ closed_line at.moment at.number) }
{
    let words = [Decimal(at.moment), Decimal(at.number), Plain(b"closed")];
    put_line(&Plain(b"<"), &words, out)
}
