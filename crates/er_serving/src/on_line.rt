//! A command of the loop: its key file, its loop, and with what status it ends.

ghost use Rattle.std.specs.Prelude.{◌≡◌, length, map};
ghost use Rattle.key_store.specs.KeyFiles.{keys_of};
ghost use Rattle.er_serving.specs.LineCommands.{key_file_of};
ghost use Rattle.er_serving.specs.LineCommandViews.{line_view};
ghost use Rattle.er_serving.specs.LineRuns.{given_to_loop};
ghost use Rattle.er_serving.specs.LineStatuses.{IsLineRun};
ghost use Rattle.er_serving.specs.LineWriting.{LoopEnds, FileEnds, LineEnds};
ghost use Rattle.er_serving.specs.OutsideViews.{KeepsCabinet, AsksOne};
ghost use Rattle.er_serving.specs.Outsides.{outside_of, traffic_at};
ghost use Rattle.er_serving.specs.RecordedLines.{IsLineRecorded};

use crate::line_command::LineCommand;
use crate::looping::{call_with, serve_with};
use crate::pair::Pair;
use er_statuses::acting::{exits, keys_refused, unfetched};
use er_statuses::{Status, Stop};
use er_users::SafeUser;
use journal::Journal;
use key_store::KeyStore;
use link_trait::FetchFault;
use std::alloc::Global;

// The loop of a command, with the keys of a store.
fn looped<O: Journal>(
    alloc: Global,
    store: &KeyStore,
    command: &LineCommand<'_>,
    users: Vec<Box<dyn SafeUser>>,
    outside: &mut O,
) -> Result<Status, Stop>
    ensures ends { LoopEnds (line_view command.now) store.now (given_to_loop (length users.items) (map mind users.items) (O.told outside.old).words)
        (traffic_at (O.told outside.old)) (traffic_at (O.told outside.new)) result }
    ensures keeps { KeepsCabinet (O.told outside.old) (O.told outside.new) }
{
    match *command {
        LineCommand::Serve {
            address,
            rbc,
            turns,
            ..
        } => serve_with(alloc, store, rbc, address, turns, users, outside),
        LineCommand::Call {
            address,
            engine,
            rbc,
            turns,
            ..
        } => call_with(
            alloc,
            store,
            Pair { engine, rbc },
            address,
            turns,
            users,
            outside,
        ),
    }
}

// The same with the octets of the key file.
fn keyed<O: Journal>(
    alloc: Global,
    octets: &[u8],
    command: &LineCommand<'_>,
    users: Vec<Box<dyn SafeUser>>,
    outside: &mut O,
) -> Result<Status, Stop>
    ensures ends { FileEnds (line_view command.now) (keys_of octets.now) (given_to_loop (length users.items) (map mind users.items) (O.told outside.old).words)
        (traffic_at (O.told outside.old)) (traffic_at (O.told outside.new)) result }
    ensures keeps { KeepsCabinet (O.told outside.old) (O.told outside.new) }
{
    match KeyStore::from_bytes(alloc, octets) {
        Ok(store) => looped(alloc, &store, command, users, outside),
        Err(fault) => keys_refused(alloc, fault, outside),
    }
}

// The same with the name of the key file, which is fetched.
fn answered<O: Journal>(
    alloc: Global,
    command: &LineCommand<'_>,
    users: Vec<Box<dyn SafeUser>>,
    outside: &mut O,
) -> Result<Status, Stop>
    ensures ends { LineEnds (line_view command.now) (given_to_loop (length users.items) (map mind users.items) (O.told outside.old).words)
        (outside_of (O.told outside.old)) (outside_of (O.told outside.new)) result }
    ensures asks { AsksOne (key_file_of (line_view command.now)) (O.told outside.old) (O.told outside.new) result }
{
    let name = command.key_file();
    match outside.fetch(alloc, name) {
        Ok(octets) => keyed(alloc, octets.as_slice(), command, users, outside),
        Err(FetchFault::Failed) => unfetched(alloc, name, outside),
        Err(FetchFault::NoMemory(want)) => Err(Stop::NoMemory(want)),
    }
}

/// Does what `serve` or `call` asks for, with the usual settings, and answers with what status the program is to end: 0 where the loop stopped, 2
/// where the key file can't be fetched, 4 where it is refused or has no key of the pair, 5 where a write failed, 6 where a listen, dial or turn
/// of the wires failed, 7 for want of memory.
pub fn run_on_line<O: Journal>(
    alloc: Global,
    command: &LineCommand<'_>,
    users: Vec<Box<dyn SafeUser>>,
    outside: &mut O,
) -> Status
    ensures run { IsLineRun (line_view command.now) (given_to_loop (length users.items) (map mind users.items) (O.told outside.old).words)
        (outside_of (O.told outside.old)) (outside_of (O.told outside.new)) result.0 }
    ensures recorded { IsLineRecorded (O.told outside.old) (O.told outside.new) }
{
    let ended = answered(alloc, command, users, outside);
    exits(ended, outside)
}
