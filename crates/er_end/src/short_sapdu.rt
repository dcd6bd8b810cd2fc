//! An SaPDU that is short enough for one DT TPDU.

ghost use Rattle.std.specs.Prelude.{◌≡◌, ◌≤◌, ◌==◌, [], length};

use arrayvec::ArrayVec;
use std::marker::Model;

// The most octets of user data that a CC has; those of an SaPDU but a DT are at most 21.
const MOST: usize = 32;

/// An SaPDU of the set-up or of a release as octets, on its way down; no octets where there is none. It takes no memory.
#[derive(Drop)]
pub struct ShortSapdu {
    octets: ArrayVec<u8, MOST>,
}

impl Model for ShortSapdu {
    ghost use Rattle.std.specs.Prelude.{ℕ, List};

    ghost Value = { List ℕ };

    ghost view = { λ s. s.octets.items };
}

impl ShortSapdu {
    /// No octets.
    pub fn none() -> ShortSapdu
        ensures { result ≡ [] }
    {
        ShortSapdu {
            octets: ArrayVec::new(),
        }
    }

    /// These octets, at most 32.
    pub fn of(octets: &[u8]) -> ShortSapdu
        requires { length octets.now ≤ 32 }
        ensures { result ≡ octets.now }
    {
        let mut kept = ArrayVec::new();
        kept.try_extend_from_slice(octets).unwrap();
        ShortSapdu { octets: kept }
    }

    /// Whether there are none.
    pub fn is_empty(&self) -> bool
        ensures { result ≡ length self.now == 0 }
    {
        self.octets.is_empty()
    }

    /// The octets, at most 32.
    pub fn octets(&self) -> &[u8]
        ensures octets { result.now ≡ self.now }
        ensures most { length result.now ≤ 32 }
    {
        self.octets.as_slice()
    }
}
