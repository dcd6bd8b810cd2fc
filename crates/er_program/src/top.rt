//! The top call: what the program does with its words.

ghost use Rattle.std.specs.Prelude.{length, map};
ghost use Rattle.er_serving.specs.LineRuns.{GivenToLoop, given_to_loop};
ghost use Rattle.er_serving.specs.Outsides.{outside_of, IsSteady};
ghost use Rattle.er_program.specs.Commands.{command_of, octets_of_words};
ghost use Rattle.er_program.specs.CommandScripts.{DoesFile, file_script};
ghost use Rattle.er_program.specs.CommandViews.{command_view, file_view};
ghost use Rattle.er_program.specs.RecordedRuns.{IsRunRecorded};
ghost use Rattle.er_program.specs.Statuses.{IsStatusOf, Means, IsIdle, AreAsked, IsComplete, IsRun};

use crate::command::{Command, command_from};
use crate::file_command::FileCommand;
use crate::off_line::file_run;
use er_serving::run_on_line;
use er_statuses::Status;
use er_statuses::acting::exits;
use er_users::SafeUser;
use journal::Journal;
use outside::Outside;
use std::alloc::Global;

/// Does what a command asks for that needs no wires, and answers with what status the program is to end, as [`run`] does. An audit that reads its tap to
/// the end appends to `told` the line of each stream's end, whether these are printed or not.
pub fn run_off_line<O: Outside>(
    alloc: Global,
    command: &FileCommand<'_>,
    told: &mut Vec<u8>,
    outside: &mut O,
) -> Status
    // It does the acts of its script, and behind want of memory its last line, and nothing else.
    ensures does { DoesFile (file_script command.now) (O.told outside.old) (O.told outside.new) result.0 }
    ensures run { (g : GivenToLoop) → IsRun (file_view command.now) g (outside_of (O.told outside.old)) (outside_of (O.told outside.new)) result.0 }
{
    drill_model::laws::runs_grow();
    drill_laws::laws::worlds();
    drill_laws::laws::holds();
    let ended = file_run(alloc, command, told, outside);
    exits(ended, outside)
}

// A command that needs no wires is run without them, and any other over them.
fn dispatched<O: Journal>(
    alloc: Global,
    command: &Command<'_>,
    users: Vec<Box<dyn SafeUser>>,
    outside: &mut O,
) -> Status
    ensures run { IsRun (command_view command.now) (given_to_loop (length users.items) (map mind users.items) (O.told outside.old).words) (outside_of (O.told outside.old))
        (outside_of (O.told outside.new)) result.0 }
    ensures recorded { IsRunRecorded (command_view command.now) (O.told outside.old) (O.told outside.new) }
{
    match command {
        Command::File(command) => run_off_line(alloc, command, &mut Vec::new(alloc), outside),
        Command::Line(command) => run_on_line(alloc, command, users, outside),
    }
}

/// Does what the words ask for, and answers with what status the program is to end. `words` leave out the program's
/// name.
///
/// `drill SCENARIO` fetches the file SCENARIO, does its steps and prints their text, the lines of each step as soon as
/// it is done. `bits FILE` fetches the file FILE, a recorded line of at most 16,777,216 octets, reads its bits as frames
/// and prints a line for each verdict as soon as it comes, and then how many bits and frames there are. `migrate KEYS`
/// fetches the key file KEYS and prints one of version 2 that has its entries, one by one in order. `replay KEYS TRACE`
/// fetches the key file KEYS and, where it is good, the trace TRACE, gives its events to ends of their own again, and
/// prints its text anew: each event with what came of it, as soon as it is done. `check KEYS TRACE` fetches both alike,
/// holds each line of the trace against the one that the replay prints there, and prints how many events and outcomes
/// there are. `audit KEYS TAP` fetches the key file KEYS and, where it is good, the tap TAP, and prints a line for each
/// text that is heard of its links: what it is, and whether it is good; with the word `ends` behind it, a line more for
/// each side of a link: how far it was heard, and why no further. `bulk SEED COUNT` does the steps that are drawn from SEED for COUNT messages, at most 10,000, and
/// prints their totals in one line.
///
/// `serve KEYS ADDRESS RBC TURNS` fetches the key file KEYS, listens at ADDRESS as the radio block centre RBC, and serves
/// each connection with one of the users, the last first, for TURNS turns at the most. `call KEYS ADDRESS ENGINE RBC TURNS`
/// fetches the key file, asks the clock once for the moment at which the pair's key is to hold, dials ADDRESS and calls as
/// ENGINE with the last of the users. Both go by the usual settings and print what happens as a trace. The statuses:
///
/// - 0: the files were read to their end, all their steps or events are done and all was printed.
/// - 1: the words fit no command; `! usage` is printed.
/// - 2: the fetch of a file failed; `! fetch NAME` is printed, with the file's name.
/// - 3: the file is out of its grammar; `! line LINE WHY` is printed alone. A recorded line is too long: `! line 0 long`.
///   Or a step is refused; behind the lines of the steps before it, `! line LINE nolink`, `! line LINE twice` or
///   `! line LINE back` is printed. Or an event of a trace is refused; behind the text of the events before it,
///   `! line LINE` is printed with `noconn`, `twice`, `back`, `nokey` or `many`; of a check alone. Or a line of a tap names a link that no
///   line before it opened, or opens one twice; `! line LINE nolink` or `! line LINE twice` is printed alone.
/// - 4: the key file is refused; `! keys` is printed with its first fault, as `! keys twice 1 2`. Or the pair of a call
///   has no key that holds; `! keys none E R` is printed.
/// - 5: a write to the sink failed, in place of any other status; nothing is written after it.
/// - 6: a listen, dial or turn of the wires failed; behind what the loop printed, `! wires` is printed.
/// - 7: memory ran out; what was printed stays, and `! memory` is printed. It may come in place of any other.
/// - 8: a frame would be one more than may wait in one direction; behind the lines of the steps before it, or in a bulk
///   run alone, `! overfull LINK S MOST` is printed.
/// - 9: a line of a checked trace isn't what the replay prints there, or isn't ended, or is missing: `! line LINE` is
///   printed with `differs`, `cut` or `missing`, alone.
pub fn run<O: Journal>(
    alloc: Global,
    words: &[String],
    users: Vec<Box<dyn SafeUser>>,
    outside: &mut O,
) -> Status
    // The list of statuses is closed, and each has its cause. With `complete` each comes exactly where its cause is met.
    ensures known { IsStatusOf (command_of (octets_of_words words.now)) result.0 }
    ensures means { Means (command_of (octets_of_words words.now)) (given_to_loop (length users.items) (map mind users.items) (O.told outside.old).words)
        (outside_of (O.told outside.old)) (outside_of (O.told outside.new)) result.0 }
    // The wires of a command that needs none get no call; `serve` and `call` make none before the key file is good.
    ensures idle { IsIdle (command_of (octets_of_words words.now)) (outside_of (O.told outside.old)) (outside_of (O.told outside.new)) result.0 }
    // The file words are asked for in their order, each once, and nothing else is.
    ensures asked { AreAsked (command_of (octets_of_words words.now)) (outside_of (O.told outside.old)) (outside_of (O.told outside.new)) result.0 }
    // Where no count of faults rose, the words and the files give their status, want of memory aside.
    ensures complete { IsComplete (command_of (octets_of_words words.now)) (outside_of (O.told outside.old)) (outside_of (O.told outside.new)) result.0 }
    // The cabinet's files stay, and no count of faults falls.
    ensures steady { IsSteady (outside_of (O.told outside.old)) (outside_of (O.told outside.new)) }
    // Of `serve` and `call` the lines that tell of what goes to a connection are written before it goes; behind a write that failed nothing goes.
    ensures recorded { IsRunRecorded (command_of (octets_of_words words.now)) (O.told outside.old) (O.told outside.new) }
{
    let command = command_from(words);
    dispatched(alloc, &command, users, outside)
}
