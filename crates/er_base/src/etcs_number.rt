//! ETCS numbers of trains and centres.

ghost use Rattle.std.specs.Prelude.{◌≡◌, ◌≤◌, ◌<◌, MatchOption};

use std::marker::Model;

/// The greatest number of an engine or a radio block centre, 2^24 - 1: an ETCS number has three octets (SUBSET-037).
pub const MOST_ETCS_NUMBER: u32 = 16_777_215;

/// The number of an engine or of a radio block centre, at most [`MOST_ETCS_NUMBER`].
#[derive(Clone, Copy, Debug)]
pub struct EtcsNumber {
    number: u32,
}

impl Model for EtcsNumber {
    ghost use Rattle.std.specs.Prelude.{ℕ, ◌<◌};

    ghost Value = { ℕ };

    ghost view = { λ n. n.number };

    ghost inverse = { λ number. record { number = number } };

    ghost invariant = { λ n. n.number < 16777216 };
}

impl EtcsNumber {
    /// The ETCS number that is this number.
    pub fn new(number: u32) -> EtcsNumber
        requires { number < 16777216 }
        ensures { result ≡ number }
    {
        EtcsNumber { number }
    }

    /// The ETCS number that is this number. None exactly where it is greater than the greatest.
    pub fn checked(number: u32) -> Option<EtcsNumber>
        ensures { MatchOption result (16777215 < number) (λ etcs. (etcs ≡ number) × (number < 16777216)) }
    {
        if number > MOST_ETCS_NUMBER {
            return None;
        }
        Some(EtcsNumber { number })
    }

    /// The number.
    pub fn get(self) -> u32
        ensures same { result ≡ self }
        ensures within { result < 16777216 }
    {
        self.number
    }
}
