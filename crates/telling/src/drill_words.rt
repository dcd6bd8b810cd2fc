//! The lines of a drill.

use crate::table::text_of;
use crate::wanted::{Behind, Row, Wanted, behind};

const ROWS: [Row; 15] = [
    ("set", "NAME VALUE", &[Wanted::Any, Wanted::Any]),
    (
        "link",
        "N E R KEY KEY RA RB",
        &[
            Wanted::Link,
            Wanted::EtcsNumber,
            Wanted::EtcsNumber,
            Wanted::Kmac,
            Wanted::KmacOrNone,
            Wanted::RandomNumber,
            Wanted::RandomNumber,
        ],
    ),
    (
        "fixed",
        "N E R KEY KEY",
        &[
            Wanted::Link,
            Wanted::EtcsNumber,
            Wanted::EtcsNumber,
            Wanted::Kmac,
            Wanted::Kmac,
        ],
    ),
    ("wire", "N", &[Wanted::Link]),
    ("tick", "MOMENT", &[Wanted::Moment]),
    ("pass", "N S", &[Wanted::Link, Wanted::Side]),
    ("lose", "N S", &[Wanted::Link, Wanted::Side]),
    ("repeat", "N S", &[Wanted::Link, Wanted::Side]),
    ("take", "N S", &[Wanted::Link, Wanted::Side]),
    (
        "send",
        "N S HEX",
        &[Wanted::Link, Wanted::Side, Wanted::Octets],
    ),
    (
        "put",
        "N S HEX",
        &[Wanted::Link, Wanted::Side, Wanted::Octets],
    ),
    ("drain", "N MOST", &[Wanted::Link, Wanted::Passes]),
    (
        "alter",
        "N S PLACE HEX",
        &[Wanted::Link, Wanted::Side, Wanted::Number, Wanted::Mask],
    ),
    (
        "copy",
        "N S M T",
        &[Wanted::Link, Wanted::Side, Wanted::Link, Wanted::Side],
    ),
    (
        "release",
        "N S X",
        &[Wanted::Link, Wanted::Side, Wanted::SubReason],
    ),
];

/// What stands behind the first word of a line of a drill, as the page of formats names it and word by word; None where no
/// line begins so.
pub(crate) fn drill_words(first: &[u8]) -> Option<Behind> {
    behind(&ROWS, first)
}

// The beginnings of lines, and the levels of a drill that have them.
const LEVELS: &str = "\
link|levels safe and full
fixed|level safe
wire|levels link and link-sr
take|level full
tick|levels link, link-sr and full";

/// The levels of a drill that have the line that begins so.
pub(crate) fn levels(first: &[u8]) -> &'static str {
    match text_of(LEVELS, first) {
        Some(levels) => levels,
        None => "other levels",
    }
}

// The settings, and the values that each may have.
const SETTINGS: &str = "\
show|0 or 1
modulo|8 or 128, and 8 only while the window is one of modulo 8
window|1 to 7, behind 'set modulo 128' to 31; at level link-sr at most half of the modulo
credit|1 to 15
size|128, 256, 512 or 1024
t1|100 to 60000
n2|1 to 10
setup|1000 to 600000";

/// The values that a setting may have; None where there is no setting of this name.
pub(crate) fn setting_values(name: &[u8]) -> Option<&'static str> {
    text_of(SETTINGS, name)
}
