//! Commands that read a key file and then, where it is good, another file: `replay`, `check` and `audit`.

ghost use Rattle.key_store.specs.KeyFiles.{keys_of};
ghost use Rattle.outside.specs.Scripts.{Does};
ghost use Rattle.er_statuses.specs.FileScripts.{behind_keys, fetches_file};
ghost use Rattle.er_statuses.specs.ScriptEnds.{end_of_run};
ghost use Rattle.er_program.specs.KeyedScripts.{does_work, works_behind_keys};

use crate::audit::audit_file;
use crate::check::check_file;
use crate::file_command::KeyedCommand;
use crate::replay::replay_file;
use crate::work::Work;
use er_statuses::acting::{keys_refused, unfetched};
use er_statuses::{Status, Stop};
use key_store::KeyStore;
use link_trait::FetchFault;
use outside::Outside;
use std::alloc::Global;

// The octets of the file. What an audit tells of ends is given back.
fn work_on<O: Outside>(
    alloc: Global,
    work: Work,
    store: &KeyStore,
    octets: &[u8],
    told: &mut Vec<u8>,
    outside: &mut O,
) -> Result<Status, Stop>
    ensures does { Does (does_work work store.now octets.now) (O.told outside.old) (O.told outside.new) (end_of_run result) }
{
    match work {
        Work::Replay => replay_file(alloc, store, octets, outside),
        Work::Check => check_file(alloc, store, octets, outside),
        Work::Audit { ends } => audit_file(alloc, ends, store, octets, told, outside),
    }
}

// The file of that name.
fn work_named<O: Outside>(
    alloc: Global,
    work: Work,
    store: &KeyStore,
    name: &str,
    told: &mut Vec<u8>,
    outside: &mut O,
) -> Result<Status, Stop>
    ensures does { Does (fetches_file name.now (does_work work store.now)) (O.told outside.old) (O.told outside.new) (end_of_run result) }
{
    match outside.fetch(alloc, name) {
        Ok(octets) => work_on(alloc, work, store, octets.as_slice(), told, outside),
        Err(FetchFault::Failed) => unfetched(alloc, name, outside),
        Err(FetchFault::NoMemory(want)) => Err(Stop::NoMemory(want)),
    }
}

// The file of that name, with the key file whose octets these are.
fn work_with<O: Outside>(
    alloc: Global,
    work: Work,
    octets: &[u8],
    name: &str,
    told: &mut Vec<u8>,
    outside: &mut O,
) -> Result<Status, Stop>
    ensures does { Does (behind_keys (keys_of octets.now) (λ entries. fetches_file name.now (does_work work entries))) (O.told outside.old) (O.told outside.new) (end_of_run result) }
{
    match KeyStore::from_bytes(alloc, octets) {
        Ok(store) => work_named(alloc, work, &store, name, told, outside),
        Err(fault) => keys_refused(alloc, fault, outside),
    }
}

/// Fetches the key file and then, where it is good, the file of the second name, and does with it what is asked for. An audit appends to `told` what
/// it tells of ends, whether they are asked for or not.
pub fn keyed<O: Outside>(
    alloc: Global,
    command: &KeyedCommand<'_>,
    told: &mut Vec<u8>,
    outside: &mut O,
) -> Result<Status, Stop>
    ensures does { Does (works_behind_keys command.now.work command.now.keys.now command.now.name.now) (O.told outside.old) (O.told outside.new) (end_of_run result) }
{
    match outside.fetch(alloc, command.keys) {
        Ok(octets) => {
            work_with(
                alloc,
                command.work,
                octets.as_slice(),
                command.name,
                told,
                outside,
            )
        }
        Err(FetchFault::Failed) => unfetched(alloc, command.keys, outside),
        Err(FetchFault::NoMemory(want)) => Err(Stop::NoMemory(want)),
    }
}
