//! A run of `serve` or `call` with an application: its key file, its loop, and with what status it ends.

ghost use Rattle.std.specs.Prelude.{◌≡◌};
ghost use Rattle.key_store.specs.KeyFiles.{keys_of};
ghost use Rattle.er_statuses.specs.ScriptEnds.{end_of_run};
ghost use Rattle.application_command.specs.ApplicationCommandViews.{application_view};
ghost use Rattle.application_command.specs.ApplicationRuns.{IsApplicationStatus, EndsKeyFile, EndsBesideApplication, RunsBesideApplication};

use crate::command::ApplicationCommand;
use crate::looping::loop_with;
use er_statuses::acting::{exits, keys_refused, unfetched};
use er_statuses::{Status, Stop};
use journal::Journal;
use key_store::KeyStore;
use link_trait::FetchFault;
use outside::Outside;
use std::alloc::Global;

// With the octets of the key file.
fn keyed<O: Journal>(
    alloc: Global,
    octets: &[u8],
    command: &ApplicationCommand<'_>,
    outside: &mut O,
) -> Result<Status, Stop>
    ensures ends { EndsKeyFile (keys_of octets.now) (application_view command.now) (O.told outside.old) (O.told outside.new) (end_of_run result) }
{
    match KeyStore::from_bytes(alloc, octets) {
        Ok(store) => loop_with(alloc, store, command, outside),
        Err(fault) => keys_refused(alloc, fault, outside),
    }
}

// Fetches the key file, and does what follows.
fn ran<O: Journal>(
    alloc: Global,
    command: &ApplicationCommand<'_>,
    outside: &mut O,
) -> Result<Status, Stop>
    ensures ends { EndsBesideApplication (application_view command.now) (O.told outside.old) (O.told outside.new) (end_of_run result) }
{
    let name = command.line.key_file();
    match outside.fetch(alloc, name) {
        Ok(octets) => keyed(alloc, octets.as_slice(), command, outside),
        Err(FetchFault::Failed) => unfetched(alloc, name, outside),
        Err(FetchFault::NoMemory(want)) => Err(Stop::NoMemory(want)),
    }
}

/// Does what `serve` or `call` with an application asks for, with the usual settings: fetches the key file, listens for the application at the socket of
/// that file name, and serves or calls with the application as the user of each session. Answers with what status the program is to end:
///
/// - 0: all turns were done, the wires ended, all was drained, or the connection of a call was closed.
/// - 2: the fetch of the key file failed; `! fetch NAME` is printed.
/// - 4: the key file is refused, and `! keys` is printed with its first fault; or the pair of a call has no key that holds, and `! keys none E R` is.
/// - 5: a write to the sink failed, in place of any other status.
/// - 6: a listen, dial or turn of the wires failed; behind what was printed, `! wires` is printed.
/// - 7: memory ran out; what was printed stays, and `! memory` is printed.
pub fn application_run<O: Journal>(
    alloc: Global,
    command: &ApplicationCommand<'_>,
    outside: &mut O,
) -> Status
    // The list of statuses is closed.
    ensures known { IsApplicationStatus result.0 }
    ensures runs { RunsBesideApplication (application_view command.now) (O.told outside.old) (O.told outside.new) result.0 }
{
    let ended = ran(alloc, command, outside);
    exits(ended, outside)
}
