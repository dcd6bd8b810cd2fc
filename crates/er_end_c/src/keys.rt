//! The calls that look at keys before an end is made.

ghost use Rattle.std.specs.Prelude.{◌≡◌};
ghost use Rattle.key_store.specs.KeyFiles.{keys_of, three_keys};
ghost use Rattle.er_end_c.specs.Kmacs.{is_kmac_zero, kmac_status, kmac_written};
ghost use Rattle.er_end_c.specs.KeyFaults.{JudgesKeyFile};

use crate::face::CKeyFault;
use crate::status;
use des_block::TripleKey;
use er_base::number_of;
use key_store::{KeyFileFault, KeyStore};
use std::alloc::Global;

/// Makes the three numbers of a KMAC of its octets; those that are all zero are refused.
#[unsafe(no_mangle)]
pub extern "C" fn euroradio_kmac(octets: &[u8; 24], key: &mut [u64; 3]) -> i32
    ensures answer { result ≡ kmac_status octets.now }
    ensures key { key.new ≡ kmac_written octets.now key.old }
{
    let kmac = three_keys(octets);
    if is_zero(&kmac) {
        return status::KEYS;
    }
    *key = [kmac.first, kmac.second, kmac.third];
    status::OK
}

/// Judges the text of a key file, and tells its first fault.
#[unsafe(no_mangle)]
pub extern "C" fn euroradio_key_file(alloc: Global, keys: &[u8], fault: &mut CKeyFault) -> i32
    ensures judges { JudgesKeyFile (keys_of keys.now) result fault.new }
{
    *fault = CKeyFault::none();
    match KeyStore::from_bytes(alloc, keys) {
        Ok(store) => {
            drop(store);
            status::OK
        }
        Err(KeyFileFault::NoMemory(_)) => status::MEMORY,
        Err(why) => {
            *fault = CKeyFault::of(why);
            status::KEYS
        }
    }
}

// Three keys of eight octets.
#[tactic(auto, unfolding(key_store::specs::KeyFiles::three_keys))]
fn three_keys(octets: &[u8; 24]) -> TripleKey
    ensures { result ≡ three_keys octets.now }
{
    let (first, rest) = octets.split_first_chunk::<8>().unwrap();
    let (second, rest) = rest.split_first_chunk::<8>().unwrap();
    let (third, _) = rest.split_first_chunk::<8>().unwrap();
    TripleKey {
        first: number_of(first),
        second: number_of(second),
        third: number_of(third),
    }
}

fn is_zero(kmac: &TripleKey) -> bool
    ensures { result ≡ is_kmac_zero kmac.now }
{
    kmac.first == 0 && kmac.second == 0 && kmac.third == 0
}
