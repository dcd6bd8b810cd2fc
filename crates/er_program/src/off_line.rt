//! The commands that need no wires, each by its script.

ghost use Rattle.outside.specs.Scripts.{Does};
ghost use Rattle.er_statuses.specs.ScriptEnds.{end_of_run};
ghost use Rattle.er_program.specs.CommandScripts.{plain_script, file_script};

use crate::bits::bits;
use crate::bulk::bulk;
use crate::drill::drill;
use crate::file_command::{FileCommand, PlainCommand};
use crate::keyed::keyed;
use crate::migrate::migrate;
use er_statuses::acting::misused;
use er_statuses::{Status, Stop};
use outside::Outside;
use std::alloc::Global;

// What a command over one file or none asks for.
fn plain<O: Outside>(
    alloc: Global,
    command: &PlainCommand<'_>,
    outside: &mut O,
) -> Result<Status, Stop>
    ensures does { Does (plain_script command.now) (O.told outside.old) (O.told outside.new) (end_of_run result) }
{
    match *command {
        PlainCommand::Misused => misused(outside),
        PlainCommand::Drill { name } => drill(alloc, name, outside),
        PlainCommand::Bits { name } => bits(alloc, name, outside),
        PlainCommand::Migrate { keys } => migrate(alloc, keys, outside),
        PlainCommand::Bulk { seed, count } => bulk(alloc, seed, count, outside),
    }
}

/// What a command that needs no wires asks for. An audit appends to `told` what it tells of ends.
pub fn file_run<O: Outside>(
    alloc: Global,
    command: &FileCommand<'_>,
    told: &mut Vec<u8>,
    outside: &mut O,
) -> Result<Status, Stop>
    ensures does { Does (file_script command.now) (O.told outside.old) (O.told outside.new) (end_of_run result) }
{
    match command {
        FileCommand::Plain(command) => plain(alloc, command, outside),
        FileCommand::Keyed(command) => keyed(alloc, command, told, outside),
    }
}
