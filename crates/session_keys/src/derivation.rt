//! The derivation of the session keys.

ghost use Rattle.std.specs.Prelude.{◌≡◌};
ghost use Rattle.bit_lists.specs.Bits.{bits};
ghost use Rattle.des_block.specs.declared.triple_key.TripleKey.{TripleKey};
ghost use Rattle.session_keys.specs.Session.{session_of, left_halves, right_halves, reversed_key};

use des_block::{TripleKey, TripleSchedule};

/// The session keys of a connection, from the KMAC of its two ends, the random number `ra` of the end
/// that was called and the random number `rb` of the end that calls.
pub fn derive(kmac: &TripleKey, ra: u64, rb: u64) -> TripleKey
    ensures { result ≡ session_of kmac.now ra rb }
{
    let schedule = TripleSchedule::new(kmac);
    let left = join_left(ra, rb);
    TripleKey {
        first: schedule.encipher(left),
        second: schedule.encipher(join_right(ra, rb)),
        third: TripleSchedule::new(&reversed(kmac)).encipher(left),
    }
}

// The three keys from the last to the first.
fn reversed(key: &TripleKey) -> TripleKey
    ensures { result ≡ reversed_key key.now }
{
    TripleKey {
        first: key.third,
        second: key.second,
        third: key.first,
    }
}

// The left halves, `ra`'s first.
fn join_left(ra: u64, rb: u64) -> u64
    ensures { bits 64 result ≡ left_halves ra rb }
{
    ((ra >> 32) << 32) | (rb >> 32)
}

// The right halves, `ra`'s first.
fn join_right(ra: u64, rb: u64) -> u64
    ensures { bits 64 result ≡ right_halves ra rb }
{
    (ra << 32) | (rb & 0xffff_ffff)
}
