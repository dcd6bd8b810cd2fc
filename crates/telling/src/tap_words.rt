//! The lines of a tap.

use crate::wanted::{Behind, Row, Wanted, behind};

const ROWS: [Row; 2] = [
    (
        "link",
        "N E R MOMENT",
        &[
            Wanted::Link,
            Wanted::EtcsNumber,
            Wanted::EtcsNumber,
            Wanted::Moment,
        ],
    ),
    (
        "octets",
        "N S HEX",
        &[Wanted::Link, Wanted::Side, Wanted::Octets],
    ),
];

/// What stands behind the first word of a line of a tap; None where no line begins so.
pub(crate) fn tap_words(first: &[u8]) -> Option<Behind> {
    behind(&ROWS, first)
}
