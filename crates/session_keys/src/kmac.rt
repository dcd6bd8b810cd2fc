//! The KMAC of two ends, as a type of its own.

ghost use Rattle.std.specs.Prelude.{◌≡◌};
ghost use Rattle.des_block.specs.declared.triple_key.TripleKey.{TripleKey};
ghost use Rattle.session_keys.specs.Session.{session_of};

use crate::derivation::derive;
use crate::session_keys::SessionKeys;
use des_block::TripleKey;
use std::fmt;
use std::marker::Model;

/// The KMAC that two ends have in common: session keys are derived from it, and no text is sealed under it.
///
/// In contracts it is the three keys.
#[derive(Drop)]
pub struct Kmac {
    key: TripleKey,
}

impl Model for Kmac {
    ghost Value = { TripleKey };

    ghost view = { λ k. k.key };
}

impl Kmac {
    /// The KMAC that is these three keys.
    pub fn new(key: TripleKey) -> Kmac
        ensures { result ≡ key }
    {
        Kmac { key }
    }

    /// The three keys.
    pub fn key(&self) -> TripleKey
        ensures { result ≡ self.now }
    {
        self.key
    }

    /// The same KMAC once more.
    pub fn copied(&self) -> Kmac
        ensures { result ≡ self.now }
    {
        Kmac { key: self.key }
    }

    /// The session keys of a connection, from the random number `ra` of the end that was called and the random number `rb` of
    /// the end that calls.
    pub fn session_keys(&self, ra: u64, rb: u64) -> SessionKeys
        ensures { result ≡ session_of self.now ra rb }
    {
        SessionKeys::new(derive(&self.key, ra, rb))
    }
}

/// No key is shown: all print as `Kmac(..)`.
impl fmt::Debug for Kmac {
    fn fmt<W: fmt::Write>(&self, f: &mut fmt::Formatter<W>) -> fmt::Result {
        f.write_str("Kmac(..)")
    }
}
