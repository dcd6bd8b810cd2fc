//! The three keys of the Triple Data Encryption Algorithm.

use std::fmt;

/// Three DES keys, in the order in which FIPS 46-3 uses them to encipher. A KMAC and the session keys
/// have this form. Bits 8, 16, .. 64 of each are not used.
#[derive(Clone, Copy, PartialEq, Eq)]
pub struct TripleKey {
    /// The key under which a block is enciphered first.
    pub first: u64,
    /// The key under which it is deciphered then.
    pub second: u64,
    /// The key under which it is enciphered last.
    pub third: u64,
}

/// No key is shown: all print as `TripleKey(..)`.
impl fmt::Debug for TripleKey {
    fn fmt<W: fmt::Write>(&self, f: &mut fmt::Formatter<W>) -> fmt::Result {
        f.write_str("TripleKey(..)")
    }
}
