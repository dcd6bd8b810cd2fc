//! The lines of a relay's script.

use crate::wanted::{Behind, Row, Wanted, behind};

const ROWS: [Row; 6] = [
    (
        "lose",
        "S KIND K",
        &[Wanted::Side, Wanted::UnitKind, Wanted::Ordinal],
    ),
    (
        "repeat",
        "S KIND K",
        &[Wanted::Side, Wanted::UnitKind, Wanted::Ordinal],
    ),
    (
        "close",
        "S KIND K",
        &[Wanted::Side, Wanted::UnitKind, Wanted::Ordinal],
    ),
    (
        "alter",
        "S KIND K PLACE MASK",
        &[
            Wanted::Side,
            Wanted::UnitKind,
            Wanted::Ordinal,
            Wanted::Ordinal,
            Wanted::Mask,
        ],
    ),
    (
        "put",
        "S KIND K HEX",
        &[
            Wanted::Side,
            Wanted::UnitKind,
            Wanted::Ordinal,
            Wanted::Octets,
        ],
    ),
    (
        "delay",
        "S KIND K MS",
        &[
            Wanted::Side,
            Wanted::UnitKind,
            Wanted::Ordinal,
            Wanted::Delay,
        ],
    ),
];

/// What stands behind the first word of a line of a script; None where no line begins so.
pub(crate) fn script_words(first: &[u8]) -> Option<Behind> {
    behind(&ROWS, first)
}
