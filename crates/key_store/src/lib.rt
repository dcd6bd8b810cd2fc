//! Key files of this profile: which KMAC a pair of ETCS numbers has, and when (UNISIG SUBSET-037 knows a KMAC by its pair).
//!
//! A key file is a TOML document of version 1 or 2. It is read whole, refused by its first fault, and printed as one of
//! version 2. Nothing is said of the quality of keys or of how they come to be in the file.
#![tactic(auto)]

mod document;
mod field_name;
mod key_entry;
mod key_file_fault;
mod key_reader;
mod key_store;
mod key_writer;
mod ranged_entries;
mod twice;
mod version;
mod want;

pub use field_name::FieldName;
pub use key_entry::KeyEntry;
pub use key_file_fault::KeyFileFault;
pub use key_store::KeyStore;
