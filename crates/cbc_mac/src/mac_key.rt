//! The MAC of a text, and the three keys prepared for many texts.

ghost use Rattle.std.specs.Prelude.{◌≡◌, ◌<◌, length};
ghost use Rattle.des_block.specs.declared.triple_key.TripleKey.{TripleKey};
ghost use Rattle.cbc_mac.specs.Mac.{mac_of};

use crate::chaining::{chain, padded_block};
use des_block::{TripleKey, TripleSchedule};
use std::marker::Model;

/// Three keys with their key schedules, for a caller that seals many messages under one session key.
///
/// In contracts it is the three keys.
#[derive(Drop)]
pub struct MacKey {
    schedule: TripleSchedule,
}

impl Model for MacKey {
    ghost Value = { TripleKey };

    ghost view = { λ m. m.schedule };
}

impl MacKey {
    /// Prepares three keys.
    pub fn new(key: &TripleKey) -> MacKey
        ensures { result ≡ key.now }
    {
        MacKey {
            schedule: TripleSchedule::new(key),
        }
    }

    /// The three keys.
    pub fn key(&self) -> TripleKey
        ensures { result ≡ self.now }
    {
        self.schedule.key()
    }

    /// The MAC of a text that isn't empty, under the three keys (ISO/IEC 9797-1, CBC chaining over DES).
    ///
    /// The text is read in place; zero octets up to a whole block are meant and not written.
    pub fn mac(&self, text: &[u8]) -> u64
        requires { 0 < length text.now }
        ensures { result ≡ mac_of self.now text.now }
    {
        let (before, last) = text.split_at(8 * ((text.len() - 1) / 8));
        self.schedule
            .encipher(chain(&self.schedule, before) ^ padded_block(last))
    }
}

/// The MAC of a text that isn't empty, under three keys (ISO/IEC 9797-1, CBC chaining over DES).
///
/// The three schedules are made once a call: a caller with many texts under one key keeps a [`MacKey`].
pub fn mac(key: &TripleKey, text: &[u8]) -> u64
    requires { 0 < length text.now }
    ensures { result ≡ mac_of key.now text.now }
{
    MacKey::new(key).mac(text)
}
