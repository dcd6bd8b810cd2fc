//! The one key that the ends of a link can find.

ghost use Rattle.std.specs.Prelude.{◌≡◌};
ghost use Rattle.drill_ends.specs.Keys.{key_entries_of_pair, AreKeysSteady};

use er_base::{EtcsNumber, Moment};
use safety_automaton::KeyFinder;
use session_keys::Kmac;
use std::marker::Model;

/// The one key that the ends of a link can find, at every moment: the KMAC of an engine and a radio block centre, if the latter has
/// one. In contracts it is the list of the keys.
#[derive(Drop)]
pub struct OneKey {
    engine: EtcsNumber,
    rbc: EtcsNumber,
    kmac: Option<Kmac>,
}

impl Model for OneKey {
    ghost use Rattle.std.specs.Prelude.{List};
    ghost use Rattle.safety_automaton.specs.Keys.{KmacEntry};
    ghost use Rattle.drill_ends.specs.Keys.{key_entries_of_pair};

    ghost Value = { List KmacEntry };

    ghost view = { λ k. key_entries_of_pair k.engine k.rbc k.kmac };
}

impl OneKey {
    /// The KMAC of an engine and a radio block centre, if there is one.
    pub fn new(engine: EtcsNumber, rbc: EtcsNumber, kmac: Option<Kmac>) -> OneKey
        ensures { result ≡ key_entries_of_pair engine rbc kmac }
    {
        OneKey { engine, rbc, kmac }
    }

    /// The key is found alike at any two moments.
    pub fn is_steady(&self)
        ensures { AreKeysSteady self.now }
    {
        let _kmac = &self.kmac;
    }
}

impl KeyFinder for OneKey {
    ghost entries = { λ k. k };

    fn find(&self, engine: EtcsNumber, rbc: EtcsNumber, now: Moment) -> Option<Kmac> {
        match &self.kmac {
            Some(kmac) => {
                if self.engine.get() == engine.get() && self.rbc.get() == rbc.get() {
                    Some(kmac.copied())
                } else {
                    None
                }
            }
            None => None,
        }
    }
}
