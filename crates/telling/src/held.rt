//! How many keys of a file a radio block centre has.

use std::alloc::Global;
use toml::Value;

/// What the entries of a key file are for one radio block centre.
#[derive(Clone, Copy, Debug, PartialEq, Eq)]
pub struct KeysHeld {
    /// The entries.
    pub entries: usize,
    /// Those of this radio block centre.
    pub of_centre: usize,
    /// Those of them that hold at this moment.
    pub holding: usize,
}

/// What the entries of a key file are for the radio block centre `rbc` at the moment `now`, in milliseconds; None where the
/// octets are no key file.
pub fn keys_held(alloc: Global, octets: &[u8], rbc: u64, now: u64) -> Option<KeysHeld> {
    let document = toml::table_from_slice(alloc, octets).ok()?;
    let has_windows = document.get("version").and_then(Value::as_integer) == Some(2);
    let mut held = KeysHeld {
        entries: 0,
        of_centre: 0,
        holding: 0,
    };
    let Some(list) = document.get("key") else {
        return Some(held);
    };
    for entry in list.as_array()?.iter() {
        held.entries = held.entries.saturating_add(1);
        if number_at(entry, "rbc") != Some(rbc) {
            continue;
        }
        held.of_centre = held.of_centre.saturating_add(1);
        let from = number_at(entry, "from").unwrap_or(0);
        let to = number_at(entry, "to").unwrap_or(u64::MAX);
        if !has_windows || (from <= now && now <= to) {
            held.holding = held.holding.saturating_add(1);
        }
    }
    Some(held)
}

fn number_at(entry: &Value, name: &str) -> Option<u64> {
    let number = entry.get(name)?.as_integer()?;
    u64::try_from(number).ok()
}
