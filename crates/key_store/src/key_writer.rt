//! Prints entries as a key file of version 2.

ghost use Rattle.std.specs.Prelude.{◌≡◌, ◌∷◌, ◌++◌, [], map, string_bytes, Ok, IfOk, OnOk};
ghost use Rattle.toml.specs.Data.{table, array};
ghost use Rattle.toml.specs.View.{view, table_view, items_view};
ghost use Rattle.key_store.specs.Fields.{field_word};
ghost use Rattle.key_store.specs.KeyFiles.{keys_of};
ghost use Rattle.key_store.specs.Ranges.{IsInRange, AreInRange};
ghost use Rattle.key_store.specs.Kept.{key_entry_of};
ghost use Rattle.key_store.specs.Written.{put_member, key_digits, entry_members, entry_items, file_members};
ghost use Rattle.safety_automaton.specs.Keys.{AreKmacEntriesApart};

use crate::field_name::FieldName;
use crate::key_entry::KeyEntry;
use crate::ranged_entries::RangedEntries;
use crate::want::want_of_printing;
use des_block::TripleKey;
use er_base::{NoMemory, eight_of};
use std::alloc::Global;
use toml::{Table, Value};

// Puts a field into a table.
fn put(alloc: Global, table: &mut Table, name: FieldName, value: Value) -> Result<(), NoMemory>
    ensures { OnOk result (table_view table.new ≡ put_member (field_word name) (view value) (table_view table.old)) }
{
    let word = String::from_str(alloc, name.word())?;
    table.insert(word, value)?;
    Ok(())
}

// A KMAC as 48 hexadecimal digits.
#[tactic(auto, unfolding(crate::specs::Written::key_digits))]
fn kmac_text(alloc: Global, kmac: &TripleKey) -> Result<String, NoMemory>
    ensures { IfOk result (λ text. string_bytes text ≡ key_digits kmac.now) }
{
    let mut octets = Vec::new(alloc);
    octets.extend_from_slice(&eight_of(kmac.first))?;
    octets.extend_from_slice(&eight_of(kmac.second))?;
    octets.extend_from_slice(&eight_of(kmac.third))?;
    Ok(hex::encode(alloc, octets.as_slice())?)
}

// The table of one entry.
fn entry_table(alloc: Global, entry: &KeyEntry) -> Result<Value, NoMemory>
    requires { IsInRange (key_entry_of entry.now) }
    ensures { IfOk result (λ value. view value ≡ table (entry_members (key_entry_of entry.now))) }
{
    let mut table = Table::new(alloc);
    let kmac = kmac_text(alloc, &entry.kmac)?;
    put(
        alloc,
        &mut table,
        FieldName::Engine,
        Value::from(entry.engine),
    )?;
    put(alloc, &mut table, FieldName::Rbc, Value::from(entry.rbc))?;
    put(alloc, &mut table, FieldName::Kmac, Value::from(kmac))?;
    put(
        alloc,
        &mut table,
        FieldName::From,
        Value::from(entry.first as i64),
    )?;
    put(
        alloc,
        &mut table,
        FieldName::To,
        Value::from(entry.last as i64),
    )?;
    Ok(Value::from(table))
}

fn push(list: &mut Vec<Value>, value: Value) -> Result<(), NoMemory>
    ensures { OnOk result (list.new.items ≡ list.old.items ++ value ∷ []) }
{
    Ok(list.push(value)?)
}

// The tables of all entries.
fn entry_tables(alloc: Global, entries: &RangedEntries) -> Result<Vec<Value>, NoMemory>
    ensures made { IfOk result (λ list. items_view list.items ≡ entry_items (map key_entry_of entries.now)) }
    ensures range { AreInRange (map key_entry_of entries.now) }
{
    let all = entries.list();
    let mut list = Vec::new(alloc);
    for entry in all {
        let value = entry_table(alloc, entry)?;
        push(&mut list, value)?;
    }
    Ok(list)
}

// The table of the whole file.
fn file_table(alloc: Global, entries: &RangedEntries) -> Result<Table, NoMemory>
    ensures made { IfOk result (λ made. table_view made ≡ file_members (map key_entry_of entries.now)) }
    ensures range { AreInRange (map key_entry_of entries.now) }
{
    let mut table = Table::new(alloc);
    let keys = entry_tables(alloc, entries)?;
    put(alloc, &mut table, FieldName::Version, Value::from(2u8))?;
    put(alloc, &mut table, FieldName::Key, Value::from(keys))?;
    Ok(table)
}

/// The text of a key file of version 2 with these entries.
pub fn key_text(alloc: Global, entries: &RangedEntries) -> Result<Vec<u8>, NoMemory>
    requires { AreKmacEntriesApart (map key_entry_of entries.now) }
    ensures { IfOk result (λ text. keys_of text.items ≡ Ok (map key_entry_of entries.now)) }
{
    er_base::laws::printed_words();
    er_base::laws::octets_of_numbers();
    er_base::laws::octets_of_parts();
    let table = file_table(alloc, entries)?;
    match toml::table_to_string(alloc, &table) {
        Ok(text) => Ok(text.into_bytes()),
        Err(error) => Err(want_of_printing(&error)),
    }
}
