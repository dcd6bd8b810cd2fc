//! `relay SCRIPT LISTEN DIAL TURNS`: a relay between two devices.

ghost use Rattle.std.specs.Prelude.{◌≡◌, ◌∷◌, [], true, false, codes, if◌then◌else◌, option_map, None};
ghost use Rattle.std.specs.Str.{bytes_eq};
ghost use Rattle.relay_script.specs.Files.{script_of};
ghost use Rattle.relay_script.specs.ScriptRanges.{IsScriptInRange};
ghost use Rattle.outside.specs.Scripts.{OutOfMemory};
ghost use Rattle.er_statuses.specs.ScriptEnds.{end_of_run};
ghost use Rattle.er_program.specs.Commands.{octets_of_words, turns_number as turns_of};
ghost use Rattle.er_program.specs.RelayCommands.{relay_of, relay_command_of, relay_view};
ghost use Rattle.er_program.specs.RelayRuns.{IsRelayStatus, IsAddressText, IsNoAddressText, EndsLoop, EndsScript, EndsRelay, ExitsWith, RunsRelay};

use crate::command::turns_number;
use er_base::TextFault;
use er_statuses::acting::{last, out_of_form, say, unfetched};
use er_statuses::{Status, Stop};
use link_trait::{Failed, FetchFault};
use outside::Outside;
use relay_loop::{RelayFault, relay};
use relay_script::{Script, read};
use std::alloc::Global;
use std::net::SocketAddr;

/// The command `relay`, as the words of the program spell it.
#[derive(Clone, Copy)]
pub struct RelayCommand<'a> {
    /// The name of the script.
    pub script: &'a str,
    /// The address to listen at.
    pub listen: &'a str,
    /// The address to dial for each connection that is accepted.
    pub dial: &'a str,
    /// How many turns are done at the most: to 10^9, or 2^64 - 1 where no bound was asked for.
    pub turns: u64,
}

fn relay_of<'a>(
    script: &'a str,
    listen: &'a str,
    dial: &'a str,
    turns: Option<u64>,
) -> Option<RelayCommand<'a>>
    ensures { option_map relay_view result ≡ relay_of script.now listen.now dial.now turns }
{
    Some(RelayCommand {
        script,
        listen,
        dial,
        turns: turns?,
    })
}

fn relay_of_five<'a>(
    command: &str,
    script: &'a str,
    listen: &'a str,
    dial: &'a str,
    turns: &str,
) -> Option<RelayCommand<'a>>
    ensures { option_map relay_view result
        ≡ (if bytes_eq command.now (codes "relay") then relay_of script.now listen.now dial.now (turns_of turns.now) else None) }
{
    if command == "relay" {
        relay_of(script, listen, dial, turns_number(turns))
    } else {
        None
    }
}

/// The command `relay`, where these words fit it. They leave out the program's name.
pub fn relay_from(words: &[String]) -> Option<RelayCommand<'_>>
    ensures { option_map relay_view result ≡ relay_command_of (octets_of_words words.now) }
{
    match words {
        [command, script, listen, dial, turns] => relay_of_five(
            command.as_str(),
            script.as_str(),
            listen.as_str(),
            dial.as_str(),
            turns.as_str(),
        ),
        _ => None,
    }
}

// Whether a text is an IP address and a port.
fn is_address(text: &str) -> bool
    ensures yes { result ≡ true → IsAddressText text.now }
    ensures no { result ≡ false → IsNoAddressText text.now }
{
    match text.parse::<SocketAddr>() {
        Ok(_) => true,
        Err(_) => false,
    }
}

// The relay with a script.
fn relayed<O: Outside>(
    alloc: Global,
    script: &Script,
    command: &RelayCommand<'_>,
    outside: &mut O,
) -> Result<Status, Stop>
    requires range { IsScriptInRange script.now }
    ensures ends { EndsLoop script.now (relay_view command.now) (O.told outside.old) (O.told outside.new) (end_of_run result) }
{
    if !is_address(command.dial) {
        return last(6, b"! wires\n", outside);
    }
    match relay(
        alloc,
        script,
        command.listen,
        command.dial,
        command.turns,
        outside,
    ) {
        Ok(()) => Ok(Status(0)),
        Err(RelayFault::Wires) => last(6, b"! wires\n", outside),
        Err(RelayFault::Sink) => Err(Stop::Sink),
        Err(RelayFault::NoMemory(want)) => Err(Stop::NoMemory(want)),
    }
}

// The octets of the script.
fn scripted<O: Outside>(
    alloc: Global,
    octets: &[u8],
    command: &RelayCommand<'_>,
    outside: &mut O,
) -> Result<Status, Stop>
    ensures ends { EndsScript (script_of octets.now) (relay_view command.now) (O.told outside.old) (O.told outside.new) (end_of_run result) }
{
    match read(alloc, octets) {
        Ok(script) => relayed(alloc, &script, command, outside),
        Err(TextFault::At { line, why }) => out_of_form(alloc, line, why, outside),
        Err(TextFault::NoMemory(want)) => Err(Stop::NoMemory(want)),
    }
}

// Fetches the script, and does what it says.
fn ran<O: Outside>(
    alloc: Global,
    command: &RelayCommand<'_>,
    outside: &mut O,
) -> Result<Status, Stop>
    ensures ends { EndsRelay (relay_view command.now) (O.told outside.old) (O.told outside.new) (end_of_run result) }
{
    match outside.fetch(alloc, command.script) {
        Ok(octets) => scripted(alloc, octets.as_slice(), command, outside),
        Err(FetchFault::Failed) => unfetched(alloc, command.script, outside),
        Err(FetchFault::NoMemory(want)) => Err(Stop::NoMemory(want)),
    }
}

// The last line of a run for which memory didn't suffice.
fn exhausted<O: Outside>(outside: &mut O) -> Status
    ensures exits { ExitsWith OutOfMemory (O.told outside.old) (O.told outside.new) result.0 }
{
    match say(b"! memory\n", outside) {
        Ok(()) => Status(7),
        Err(Failed) => Status(5),
    }
}

/// `relay SCRIPT LISTEN DIAL TURNS`: fetches the script SCRIPT, listens at LISTEN, and passes octets between each connection that is accepted and one that is
/// dialled to DIAL for it, but for what the script says, for TURNS turns at the most. It prints what came and what is given, each line before that is done.
/// Answers with what status the program is to end:
///
/// - 0: all turns were done, or the wires ended.
/// - 2: the fetch of the script failed; `! fetch NAME` is printed.
/// - 3: the script is out of its grammar; `! line LINE WHY` is printed alone.
/// - 5: a write to the sink failed, in place of any other status.
/// - 6: DIAL is no address, or a listen or turn of the wires failed; behind what was printed, `! wires` is printed.
/// - 7: memory ran out; what was printed stays, and `! memory` is printed.
pub fn relay_run<O: Outside>(alloc: Global, command: &RelayCommand<'_>, outside: &mut O) -> Status
    // The list of statuses is closed.
    ensures known { IsRelayStatus result.0 }
    ensures runs { RunsRelay (relay_view command.now) (O.told outside.old) (O.told outside.new) result.0 }
{
    match ran(alloc, command, outside) {
        Ok(status) => status,
        Err(Stop::Sink) => Status(5),
        Err(Stop::NoMemory(_)) => exhausted(outside),
    }
}
