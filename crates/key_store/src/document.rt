//! A key file's document: TOML, its version and its list of entries.

ghost use Rattle.std.specs.Prelude.{◌≡◌};
ghost use Rattle.toml.specs.Data.{get};
ghost use Rattle.toml.specs.View.{view, items_view};
ghost use Rattle.key_store.specs.declared.key_file_fault.KeyFileFault.TheVariants as fault;
ghost use Rattle.key_store.specs.declared.field_name.FieldName.TheVariants as field;
ghost use Rattle.key_store.specs.Fields.{field_word};
ghost use Rattle.key_store.specs.KeyFiles.{some_or, document_of, version_of, listed, are_tables};
ghost use Rattle.key_store.specs.Kept.{AnswersAsDefinitionSays};

use crate::field_name::FieldName;
use crate::key_file_fault::KeyFileFault;
use crate::version::Version;
use crate::want::want_of_reading;
use std::alloc::Global;
use toml::Value;

/// The document that the octets are.
#[tactic(auto, unfolding(crate::specs::KeyFiles::document_of))]
pub fn read_document(alloc: Global, octets: &[u8]) -> Result<Value, KeyFileFault>
    ensures { AnswersAsDefinitionSays view result (some_or fault.Document (document_of octets.now)) }
{
    match toml::table_from_slice(alloc, octets) {
        Ok(table) => Ok(Value::from(table)),
        Err(error) => match want_of_reading(&error) {
            Some(want) => Err(KeyFileFault::NoMemory(want)),
            None => Err(KeyFileFault::Document),
        },
    }
}

/// The version that the document says.
#[tactic(auto, unfolding(crate::specs::KeyFiles::version_of))]
pub fn read_version(document: &Value) -> Result<Version, KeyFileFault>
    ensures { result ≡ version_of (view document.now) }
{
    let field = KeyFileFault::Field {
        entry: 0,
        name: FieldName::Version,
    };
    let Some(value) = document.get(FieldName::Version.word()) else {
        return Err(field);
    };
    let Some(number) = value.as_integer() else {
        return Err(field);
    };
    match number {
        1 => Ok(Version::One),
        2 => Ok(Version::Two),
        other => Err(KeyFileFault::Version(other)),
    }
}

// Whether each of the values is a table.
fn are_all_tables(values: &[Value]) -> bool
    ensures { result ≡ are_tables (items_view values.now) }
{
    for value in values {
        if !value.is_table() {
            return false;
        }
    }
    true
}

/// The entries that the document lists; none where it has no such list.
pub fn listed_keys(document: &Value) -> Result<&[Value], KeyFileFault>
    ensures { AnswersAsDefinitionSays (λ keys. items_view keys.now) result (listed (get (field_word field.Key) (view document.now))) }
{
    let field = KeyFileFault::Field {
        entry: 0,
        name: FieldName::Key,
    };
    let Some(value) = document.get(FieldName::Key.word()) else {
        return Ok(&[]);
    };
    let Some(array) = value.as_array() else {
        return Err(field);
    };
    let values = array.as_slice();
    if !are_all_tables(values) {
        return Err(field);
    }
    Ok(values)
}
