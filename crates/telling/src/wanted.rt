//! What a word or a file should have been, for people.

use er_base::{MOST_ETCS_NUMBER, MOST_MOMENT, decimal};
use relay_script::UnitKind;

// The most octets of a HEX word.
const MOST_OCTETS: usize = 4_096;

// The greatest number, place and delay of a script.
const MOST_OF_SCRIPT: u64 = 1_000_000_000;

/// What a word of a line is to be.
#[derive(Clone, Copy, PartialEq, Eq)]
pub(crate) enum Wanted {
    Link,
    EtcsNumber,
    Side,
    Kmac,
    KmacOrNone,
    RandomNumber,
    Octets,
    Mask,
    SubReason,
    Moment,
    Passes,
    Number,
    Releaser,
    UnitKind,
    Ordinal,
    Delay,
    Any,
}

impl Wanted {
    /// In words.
    pub(crate) fn words(self) -> &'static str {
        match self {
            Wanted::Link => "the number of a link, 1 to 64",
            Wanted::EtcsNumber => "an ETCS number, 0 to 16777215",
            Wanted::Side => "a side, e or r",
            Wanted::Kmac => "a key, 48 hexadecimal digits",
            Wanted::KmacOrNone => "a key, 48 hexadecimal digits, or - for none",
            Wanted::RandomNumber => "a random number, 16 hexadecimal digits",
            Wanted::Octets => "at most 4096 octets, two hexadecimal digits each, or - for none",
            Wanted::Mask => "one octet other than 00, two hexadecimal digits",
            Wanted::SubReason => "a number, 0 to 255",
            Wanted::Moment => "a moment in milliseconds, 0 to 1000000000000000",
            Wanted::Passes => "a number of passes, 1 to 100000",
            Wanted::Number => "a number of 64 bits, in decimal digits",
            Wanted::Releaser => "local or peer",
            Wanted::UnitKind => {
                "a kind of units, any, bad, i, rr, rnr, rej, srej, sabm, ua, disc, dm, frmr, other, cr, cc, dr, dc, dt, ak or er"
            }
            Wanted::Ordinal => "a number, 1 to 1000000000",
            Wanted::Delay => "milliseconds, 0 to 1000000000",
            Wanted::Any => "a word",
        }
    }

    /// Whether a word is one.
    pub(crate) fn fits(self, word: &[u8]) -> bool {
        match self {
            Wanted::Link => is_number(word, 1, 64),
            Wanted::EtcsNumber => is_number(word, 0, u64::from(MOST_ETCS_NUMBER)),
            Wanted::Side => word == b"e".as_slice() || word == b"r".as_slice(),
            Wanted::Kmac => word.len() == 48 && are_digits(word),
            Wanted::KmacOrNone => {
                word == b"-".as_slice() || (word.len() == 48 && are_digits(word))
            }
            Wanted::RandomNumber => word.len() == 16 && are_digits(word),
            Wanted::Octets => is_octets(word),
            Wanted::Mask => word.len() == 2 && are_digits(word) && word != b"00".as_slice(),
            Wanted::SubReason => is_number(word, 0, 255),
            Wanted::Moment => is_number(word, 0, MOST_MOMENT),
            Wanted::Passes => is_number(word, 1, 100_000),
            Wanted::Number => decimal(word).is_some(),
            Wanted::Releaser => word == b"local".as_slice() || word == b"peer".as_slice(),
            Wanted::UnitKind => UnitKind::named(word).is_some(),
            Wanted::Ordinal => is_number(word, 1, MOST_OF_SCRIPT),
            Wanted::Delay => is_number(word, 0, MOST_OF_SCRIPT),
            Wanted::Any => true,
        }
    }
}

/// What stands behind a word, spelled and word by word.
pub(crate) type Behind = (&'static str, &'static [Wanted]);

/// A word, and what stands behind it.
pub(crate) type Row = (&'static str, &'static str, &'static [Wanted]);

/// What stands behind a word by a table; None where no row has the word.
pub(crate) fn behind(rows: &[Row], word: &[u8]) -> Option<Behind> {
    for (known, spelled, wanted) in rows {
        if known.as_bytes() == word {
            return Some((*spelled, *wanted));
        }
    }
    None
}

fn is_number(word: &[u8], least: u64, most: u64) -> bool {
    match decimal(word) {
        Some(number) => least <= number && number <= most,
        None => false,
    }
}

fn are_digits(word: &[u8]) -> bool {
    word.iter().all(|octet| octet.is_ascii_hexdigit())
}

fn is_octets(word: &[u8]) -> bool {
    if word == b"-".as_slice() {
        return true;
    }
    !word.is_empty() && word.len() % 2 == 0 && word.len() / 2 <= MOST_OCTETS && are_digits(word)
}
