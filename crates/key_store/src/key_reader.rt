//! The entries of a key file, one by one.

ghost use Rattle.std.specs.Prelude.{true, ◌≡◌, ◌+◌, ◌<◌, ◌≤◌, [], ◌∷◌, ◌++◌, map, IfOk, OnOk};
ghost use Rattle.toml.specs.View.{view, items_view};
ghost use Rattle.key_store.specs.declared.key_file_fault.KeyFileFault.TheVariants as fault;
ghost use Rattle.key_store.specs.KeyFiles.{some_or, number_in_field, kmac_spelled, kmac_in_field, moments_in, entry_in, key_entries_in_items, three_keys};
ghost use Rattle.key_store.specs.Ranges.{IsKey, IsInRange, AreInRange};
ghost use Rattle.key_store.specs.Kept.{key_entry_of, AnswersAsDefinitionSays};
ghost use Rattle.key_store.specs.Lists.{are_in_range};

use crate::field_name::FieldName;
use crate::key_entry::KeyEntry;
use crate::key_file_fault::KeyFileFault;
use crate::version::Version;
use des_block::TripleKey;
use er_base::{LineFault, MOST_ETCS_NUMBER, MOST_MOMENT, NoMemory, number_of, read_exact};
use std::alloc::Global;
use toml::Value;

/// The greatest ETCS number, as wide as numbers are read.
const MOST_NUMBER: u64 = MOST_ETCS_NUMBER as u64;
/// The octets of three keys.
const KEY_OCTETS: usize = 24;

// A whole number from 0 to `most`.
#[tactic(auto, unfolding(crate::specs::KeyFiles::number_in_field))]
fn read_number(entry: usize, name: FieldName, most: u64, key: &Value) -> Result<u64, KeyFileFault>
    ensures value { result ≡ number_in_field entry name most (view key.now) }
    ensures range { IfOk result (λ n. n ≤ most) }
{
    let Some(value) = key.get(name.word()) else {
        return Err(KeyFileFault::Field { entry, name });
    };
    let Some(number) = value.as_integer() else {
        return Err(KeyFileFault::Field { entry, name });
    };
    if number < 0 {
        return Err(KeyFileFault::Number { entry });
    }
    let number = number as u64;
    if number > most {
        return Err(KeyFileFault::Number { entry });
    }
    Ok(number)
}

// Three keys of eight octets.
#[tactic(auto, unfolding(crate::specs::KeyFiles::three_keys))]
fn keys(octets: &[u8; KEY_OCTETS]) -> TripleKey
    ensures keys { result ≡ three_keys octets.now }
    ensures range { IsKey result }
{
    let (first, rest) = octets.split_first_chunk::<8>().unwrap();
    let (second, rest) = rest.split_first_chunk::<8>().unwrap();
    let (third, _) = rest.split_first_chunk::<8>().unwrap();
    TripleKey {
        first: number_of(first),
        second: number_of(second),
        third: number_of(third),
    }
}

// The KMAC that a string spells.
#[tactic(auto, unfolding(crate::specs::KeyFiles::kmac_spelled))]
fn kmac_of(alloc: Global, entry: usize, word: &str) -> Result<TripleKey, KeyFileFault>
    ensures said { AnswersAsDefinitionSays (λ kmac. kmac) result (some_or (fault.Hex entry) (kmac_spelled word.now)) }
    ensures range { IfOk result (λ kmac. IsKey kmac) }
{
    match read_exact(alloc, word.as_bytes(), KEY_OCTETS) {
        Ok(octets) => Ok(keys(octets.as_slice().try_into().unwrap())),
        Err(LineFault::Refused(_)) => Err(KeyFileFault::Hex { entry }),
        Err(LineFault::NoMemory(want)) => Err(KeyFileFault::NoMemory(want)),
    }
}

// A KMAC of 48 hexadecimal digits.
#[tactic(auto, unfolding(crate::specs::KeyFiles::kmac_in_field))]
fn read_kmac(alloc: Global, entry: usize, key: &Value) -> Result<TripleKey, KeyFileFault>
    ensures said { AnswersAsDefinitionSays (λ kmac. kmac) result (kmac_in_field entry (view key.now)) }
    ensures range { IfOk result (λ kmac. IsKey kmac) }
{
    let name = FieldName::Kmac;
    let Some(value) = key.get(name.word()) else {
        return Err(KeyFileFault::Field { entry, name });
    };
    let Some(word) = value.as_str() else {
        return Err(KeyFileFault::Field { entry, name });
    };
    kmac_of(alloc, entry, word)
}

// The first and the last moment.
#[tactic(auto, unfolding(crate::specs::KeyFiles::moments_in))]
fn read_moments(version: Version, entry: usize, key: &Value) -> Result<(u64, u64), KeyFileFault>
    ensures said { result ≡ moments_in version entry (view key.now) }
    ensures range { IfOk result (λ moments. (moments.0 ≤ moments.1) × (moments.1 ≤ 1000000000000000)) }
{
    match version {
        Version::One => Ok((0, MOST_MOMENT)),
        Version::Two => {
            let first = read_number(entry, FieldName::From, MOST_MOMENT, key)?;
            let last = read_number(entry, FieldName::To, MOST_MOMENT, key)?;
            if first > last {
                return Err(KeyFileFault::Range { entry });
            }
            Ok((first, last))
        }
    }
}

// One entry.
#[tactic(auto, unfolding(crate::specs::KeyFiles::entry_in))]
fn read_entry(
    alloc: Global,
    version: Version,
    entry: usize,
    key: &Value,
) -> Result<KeyEntry, KeyFileFault>
    ensures said { AnswersAsDefinitionSays key_entry_of result (entry_in version entry (view key.now)) }
    ensures range { IfOk result (λ entry. IsInRange (key_entry_of entry)) }
{
    let engine = read_number(entry, FieldName::Engine, MOST_NUMBER, key)? as u32;
    let rbc = read_number(entry, FieldName::Rbc, MOST_NUMBER, key)? as u32;
    let kmac = read_kmac(alloc, entry, key)?;
    let (first, last) = read_moments(version, entry, key)?;
    Ok(KeyEntry {
        engine,
        rbc,
        kmac,
        first,
        last,
    })
}

fn push(entries: &mut Vec<KeyEntry>, entry: KeyEntry) -> Result<(), NoMemory>
    ensures { OnOk result (entries.new.items ≡ entries.old.items ++ entry ∷ []) }
{
    Ok(entries.push(entry)?)
}

/// All entries, in their order, or the first one's fault that has one.
#[tactic(auto, unfolding(crate::specs::KeyFiles::key_entries_in_items))]
pub fn read_entries(
    alloc: Global,
    version: Version,
    keys: &[Value],
) -> Result<Vec<KeyEntry>, KeyFileFault>
    ensures said { AnswersAsDefinitionSays (λ entries. map key_entry_of entries.items) result (key_entries_in_items version 0 (items_view keys.now)) }
    ensures range { IfOk result (λ entries. AreInRange (map key_entry_of entries.items)) }
{
    let mut entries = Vec::new(alloc);
    for (before, key) in keys.iter().enumerate() {
        let read = read_entry(alloc, version, before + 1, key)?;
        push(&mut entries, read)?;
    }
    Ok(entries)
}

/// Whether the numbers of each entry are in their ranges.
pub fn are_in_range(entries: &[KeyEntry]) -> bool
    ensures value { result ≡ are_in_range (map key_entry_of entries.now) }
    ensures range { result ≡ true → AreInRange (map key_entry_of entries.now) }
{
    for entry in entries {
        if !entry.is_in_range() {
            return false;
        }
    }
    true
}
