//! `migrate KEYS`: a key file, printed as one of version 2.

ghost use Rattle.key_store.specs.KeyFiles.{keys_of};
ghost use Rattle.outside.specs.Scripts.{Does};
ghost use Rattle.er_statuses.specs.FileScripts.{behind_keys};
ghost use Rattle.er_statuses.specs.ScriptEnds.{end_of_run};
ghost use Rattle.er_program.specs.FileScripts.{prints_keys, migrates};

use er_statuses::acting::{keys_refused, last, unfetched};
use er_statuses::{Status, Stop};
use key_store::KeyStore;
use link_trait::FetchFault;
use outside::Outside;
use std::alloc::Global;

// Prints the entries of a store.
#[tactic(auto, using(outside::specs::ScriptSteps::does_spent))]
fn print_keys<O: Outside>(alloc: Global, store: &KeyStore, outside: &mut O) -> Result<Status, Stop>
    ensures does { Does (prints_keys store.now) (O.told outside.old) (O.told outside.new) (end_of_run result) }
{
    let text = store.to_text(alloc)?;
    last(0, text.as_slice(), outside)
}

// The octets of the file.
fn migrate_file<O: Outside>(alloc: Global, octets: &[u8], outside: &mut O) -> Result<Status, Stop>
    ensures does { Does (behind_keys (keys_of octets.now) prints_keys) (O.told outside.old) (O.told outside.new) (end_of_run result) }
{
    match KeyStore::from_bytes(alloc, octets) {
        Ok(store) => print_keys(alloc, &store, outside),
        Err(fault) => keys_refused(alloc, fault, outside),
    }
}

/// `migrate NAME`: fetches the key file, and prints one of version 2 that has its entries.
pub fn migrate<O: Outside>(alloc: Global, name: &str, outside: &mut O) -> Result<Status, Stop>
    ensures does { Does (migrates name.now) (O.told outside.old) (O.told outside.new) (end_of_run result) }
{
    match outside.fetch(alloc, name) {
        Ok(octets) => migrate_file(alloc, octets.as_slice(), outside),
        Err(FetchFault::Failed) => unfetched(alloc, name, outside),
        Err(FetchFault::NoMemory(want)) => Err(Stop::NoMemory(want)),
    }
}
