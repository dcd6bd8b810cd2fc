//! `replay KEYS TRACE`: a recorded session, given to ends of its own again and printed anew.

ghost use Rattle.std.specs.Prelude.{[], List};
ghost use Rattle.safety_automaton.specs.Keys.{key_at};
ghost use Rattle.er_trace.specs.declared.entry.Entry.{Entry as TraceEntry};
ghost use Rattle.er_trace.specs.Files.{trace_of};
ghost use Rattle.trace_replay.specs.Standing.{StandsBehind};
ghost use Rattle.outside.specs.Scripts.{Does};
ghost use Rattle.er_statuses.specs.ScriptEnds.{end_of_run};
ghost use Rattle.er_program.specs.EventWriting.{ReplaysEvent, ReplaysEvents, TellsRefusal};
ghost use Rattle.er_program.specs.KeyedScripts.{replays_events, replays_trace, replays_read};

use er_base::TextFault;
use er_settings::Settings;
use er_statuses::acting::{out_of_form, say, told_line};
use er_statuses::{Status, Stop};
use er_trace::{Entry, Trace, print_header, read};
use key_store::KeyStore;
use outside::Outside;
use std::alloc::Global;
use trace_replay::{ReplayFault, Replaying};

/// Why a replay ends before the last event.
pub fn not_taken<O: Outside>(
    alloc: Global,
    fault: ReplayFault,
    outside: &mut O,
) -> Result<Status, Stop>
    ensures tells { TellsRefusal fault (O.told outside.old) (O.told outside.new) (end_of_run result) }
{
    match fault {
        ReplayFault::NoConn { line, .. } => told_line(alloc, 3, line, b"noconn", outside),
        ReplayFault::ConnTwice { line, .. } => told_line(alloc, 3, line, b"twice", outside),
        ReplayFault::MomentBack { line, .. } => told_line(alloc, 3, line, b"back", outside),
        ReplayFault::NoKey { line, .. } => told_line(alloc, 3, line, b"nokey", outside),
        ReplayFault::Many { line, .. } => told_line(alloc, 3, line, b"many", outside),
        ReplayFault::Sink => Err(Stop::Sink),
        ReplayFault::NoMemory(want) => Err(Stop::NoMemory(want)),
    }
}

// Replays one event, and prints its text as soon as it is done.
fn replay_once<O: Outside>(
    store: &KeyStore,
    settings: &Settings,
    replaying: &mut Replaying,
    entry: &Entry,
    text: &mut Vec<u8>,
    outside: &mut O,
) -> Result<(), ReplayFault>
    ensures replays { (before : List TraceEntry) → StandsBehind settings.now (key_at store.now) before replaying.old
        → ReplaysEvent settings.now (key_at store.now) before entry.now replaying.new (O.told outside.old) (O.told outside.new) result }
{
    text.clear();
    replaying.take(settings, store, entry, text)?;
    match say(text.as_slice(), outside) {
        Ok(()) => Ok(()),
        Err(_) => Err(ReplayFault::Sink),
    }
}

// Replays the events of a trace, to the end or up to the first that isn't taken.
fn replay_each<O: Outside>(
    store: &KeyStore,
    trace: &Trace,
    replaying: &mut Replaying,
    text: &mut Vec<u8>,
    outside: &mut O,
) -> Result<(), ReplayFault>
    requires { StandsBehind trace.now.settings (key_at store.now) [] replaying.old }
    ensures replays { ReplaysEvents trace.now.settings (key_at store.now) trace.now.entries (O.told outside.old) (O.told outside.new) result }
{
    for entry in trace.entries.as_slice() {
        replay_once(store, &trace.settings, replaying, entry, text, outside)?;
    }
    Ok(())
}

// Replays the events of a trace, and tells the first that isn't taken.
fn replay_events<O: Outside>(
    alloc: Global,
    store: &KeyStore,
    trace: &Trace,
    text: &mut Vec<u8>,
    outside: &mut O,
) -> Result<Status, Stop>
    ensures does { Does (replays_events trace.now.settings (key_at store.now) [] trace.now.entries) (O.told outside.old) (O.told outside.new) (end_of_run result) }
{
    let mut replaying = Replaying::new(alloc);
    let ended = replay_each(store, trace, &mut replaying, text, outside);
    drop(replaying);
    match ended {
        Ok(()) => Ok(Status(0)),
        Err(fault) => not_taken(alloc, fault, outside),
    }
}

// Replays a trace that was read.
#[tactic(auto, using(outside::specs::ScriptSteps::does_spent))]
fn replay_trace<O: Outside>(
    alloc: Global,
    store: &KeyStore,
    trace: &Trace,
    outside: &mut O,
) -> Result<Status, Stop>
    ensures does { Does (replays_trace trace.now.settings (key_at store.now) trace.now.entries) (O.told outside.old) (O.told outside.new) (end_of_run result) }
{
    let mut text = Vec::new(alloc);
    print_header(&trace.settings, &mut text)?;
    match say(text.as_slice(), outside) {
        Ok(()) => replay_events(alloc, store, trace, &mut text, outside),
        Err(_) => Err(Stop::Sink),
    }
}

/// The octets of the trace's file.
pub fn replay_file<O: Outside>(
    alloc: Global,
    store: &KeyStore,
    octets: &[u8],
    outside: &mut O,
) -> Result<Status, Stop>
    ensures does { Does (replays_read store.now (trace_of octets.now)) (O.told outside.old) (O.told outside.new) (end_of_run result) }
{
    match read(alloc, octets) {
        Ok(trace) => replay_trace(alloc, store, &trace, outside),
        Err(TextFault::At { line, why }) => out_of_form(alloc, line, why, outside),
        Err(TextFault::NoMemory(want)) => Err(Stop::NoMemory(want)),
    }
}
