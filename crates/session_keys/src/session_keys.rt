//! The session keys of a connection, as a type of their own.

ghost use Rattle.std.specs.Prelude.{◌≡◌, ◌<◌, length};
ghost use Rattle.des_block.specs.declared.triple_key.TripleKey.{TripleKey};
ghost use Rattle.cbc_mac.specs.Mac.{mac_of};

use cbc_mac::MacKey;
use des_block::TripleKey;
use std::fmt;
use std::marker::Model;

/// The session keys of a connection, prepared once for the MACs of all its texts.
///
/// In contracts they are the three keys.
#[derive(Drop)]
pub struct SessionKeys {
    prepared: MacKey,
}

impl Model for SessionKeys {
    ghost Value = { TripleKey };

    ghost view = { λ k. k.prepared };
}

impl SessionKeys {
    /// The session keys that are these three keys.
    pub fn new(keys: TripleKey) -> SessionKeys
        ensures { result ≡ keys }
    {
        SessionKeys {
            prepared: MacKey::new(&keys),
        }
    }

    /// The three keys.
    pub fn key(&self) -> TripleKey
        ensures { result ≡ self.now }
    {
        self.prepared.key()
    }

    /// The MAC of a text that isn't empty, under these keys.
    pub fn mac(&self, text: &[u8]) -> u64
        requires { 0 < length text.now }
        ensures { result ≡ mac_of self.now text.now }
    {
        self.prepared.mac(text)
    }
}

/// No key is shown: all print as `SessionKeys(..)`.
impl fmt::Debug for SessionKeys {
    fn fmt<W: fmt::Write>(&self, f: &mut fmt::Formatter<W>) -> fmt::Result {
        f.write_str("SessionKeys(..)")
    }
}
