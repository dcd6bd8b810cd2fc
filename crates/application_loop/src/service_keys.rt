//! The keys that a loop with an application has for set-ups.

use key_store::KeyStore;
use safety_automaton::PairKey;

// The keys for set-ups.
#[derive(Drop)]
pub(crate) enum ServiceKeys {
    // Those of a key file.
    File(KeyStore),
    // That of the pair of a call, until the application has a key file read.
    Pair(PairKey),
}
