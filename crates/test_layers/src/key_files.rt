//! Key files and the keys that are found in them.

use des_block::TripleKey;
use er_base::{EtcsNumber, Moment};
use key_store::KeyStore;
use safety_automaton::KeyFinder;
use std::test::Fail;

const KEYS: TripleKey = TripleKey {
    first: 0x0123_4567_89AB_CDEF,
    second: 0x2345_6789_ABCD_EF01,
    third: 0x4567_89AB_CDEF_0123,
};

const WRITTEN: &str = "version = 2
extra = 1
[[key]]
rbc = 9
engine = 5
kmac = \"0123456789abcdef23456789abcdef01456789abcdef0123\"
from = 0
to = 999
[[key]]
engine = 5
rbc = 9
from = 1000
to = 1000000000000000
kmac = \"0123456789ABCDEF23456789ABCDEF01456789ABCDEF0123\"
more = []";

const PRINTED: &str = "version = 2

[[key]]
engine = 5
from = 0
kmac = \"0123456789abcdef23456789abcdef01456789abcdef0123\"
rbc = 9
to = 999

[[key]]
engine = 5
from = 1000
kmac = \"0123456789abcdef23456789abcdef01456789abcdef0123\"
rbc = 9
to = 1000000000000000
";

// What is shown of a key file has neither the digits of its keys nor their numbers.
#[test]
fn prints_entries_one_by_one_and_shows_no_key(rt: HostRuntime) -> Result<(), Fail> {
    let store = KeyStore::from_bytes(rt.alloc(), WRITTEN.as_bytes())?;
    assert!(rt; store.to_text(rt.alloc())?.as_slice() == PRINTED.as_bytes());
    let (engine, rbc) = (EtcsNumber::new(5), EtcsNumber::new(9));
    let now = Moment::new(1_000);
    let found = store.find(engine, rbc, now).map(|kmac| kmac.key());
    assert!(rt; found == Some(KEYS) && store.find(rbc, engine, now).is_none());
    let shown = format!(in rt.alloc(); "{store:?}")?;
    let has_key = shown.as_str().contains("0123") || shown.as_str().contains("81985529216486895");
    assert!(rt; !has_key);
    Ok(())
}
