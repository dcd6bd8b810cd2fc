//! The KMAC of one pair, where it is all that can be found.

ghost use Rattle.std.specs.Prelude.{◌≡◌};
ghost use Rattle.safety_automaton.specs.Pairs.{pair_entries};

use crate::key_finder::KeyFinder;
use er_base::{EtcsNumber, Moment};
use session_keys::Kmac;
use std::marker::Model;

/// Finds the KMAC of one engine and one radio block centre, which holds at every moment, and no other.
///
/// In contracts it is the pair with its KMAC.
#[derive(Drop)]
pub struct PairKey {
    engine: EtcsNumber,
    rbc: EtcsNumber,
    kmac: Kmac,
}

impl Model for PairKey {
    ghost use Rattle.safety_automaton.specs.Pairs.{PairWithKmac};

    ghost Value = { PairWithKmac };

    ghost view = { λ p. record { engine = p.engine; rbc = p.rbc; kmac = p.kmac } };
}

impl PairKey {
    /// The KMAC of an engine and a radio block centre.
    pub fn new(engine: EtcsNumber, rbc: EtcsNumber, kmac: Kmac) -> PairKey
        ensures { result ≡ record { engine = engine; rbc = rbc; kmac = kmac } }
    {
        PairKey { engine, rbc, kmac }
    }

    /// The engine.
    pub fn engine(&self) -> EtcsNumber
        ensures { result ≡ self.now.engine }
    {
        self.engine
    }

    /// The radio block centre.
    pub fn rbc(&self) -> EtcsNumber
        ensures { result ≡ self.now.rbc }
    {
        self.rbc
    }

    /// Their KMAC.
    pub fn kmac(&self) -> &Kmac
        ensures { result.now ≡ self.now.kmac }
    {
        &self.kmac
    }
}

impl KeyFinder for PairKey {
    ghost entries = { pair_entries };

    fn find(&self, engine: EtcsNumber, rbc: EtcsNumber, now: Moment) -> Option<Kmac> {
        if self.engine.get() == engine.get() && self.rbc.get() == rbc.get() {
            Some(self.kmac.copied())
        } else {
            None
        }
    }
}
