//! The loop of a command with an application, with its keys: as a radio block centre, which listens, or as an engine, which calls one.

ghost use Rattle.std.specs.Prelude.{◌≡◌, ◌∷◌, codes, IfOk};
ghost use Rattle.outside.specs.Doings.{Told};
ghost use Rattle.outside.specs.Scripts.{Does, says_last};
ghost use Rattle.er_settings.specs.Making.{usual_settings};
ghost use Rattle.safety_automaton.specs.Pairs.{pair_entries};
ghost use Rattle.er_statuses.specs.ScriptEnds.{end_of_run};
ghost use Rattle.application_command.specs.ApplicationCommandViews.{application_view};
ghost use Rattle.application_command.specs.ApplicationRuns.{keyless_line, EndsLoop, EndsService, EndsCall, EndsWithKeys};

use crate::command::ApplicationCommand;
use application_loop::{ServiceEnd, ServicePlan, call_application, serve_application};
use er_base::PrintedWord::{Decimal, Plain};
use er_base::{EtcsNumber, Moment, NoMemory};
use er_program::LineCommand;
use er_settings::Settings;
use er_statuses::acting::{last, say_keys};
use er_statuses::{Status, Stop};
use journal::Journal;
use key_store::KeyStore;
use loop_session::LoopFault;
use outside::Outside;
use safety_automaton::{KeyFinder, PairKey};
use std::alloc::Global;

// What the loop listens at for its application: the file name behind the word for such names.
fn socket_of(alloc: Global, application: &str) -> Result<String, NoMemory> {
    let mut socket = String::new(alloc);
    socket.push_str("unix:")?;
    socket.push_str(application)?;
    Ok(socket)
}

// What the loop of a command goes by.
fn plan_of<'a>(command: &LineCommand<'a>, socket: &'a str) -> ServicePlan<'a>
    ensures { result.settings ≡ usual_settings }
{
    match *command {
        LineCommand::Serve {
            keys,
            address,
            rbc,
            turns,
        }
        | LineCommand::Call {
            keys,
            address,
            rbc,
            turns,
            ..
        } => ServicePlan {
            settings: Settings::usual(),
            rbc,
            turns,
            address,
            application: socket,
            key_file: keys,
        },
    }
}

// How the loop ended.
fn ended<O: Outside>(
    stopped: Result<ServiceEnd, LoopFault>,
    outside: &mut O,
) -> Result<Status, Stop>
    ensures ends { EndsLoop (O.told outside.old) (O.told outside.new) (end_of_run result) }
{
    match stopped {
        Ok(_) => Ok(Status(0)),
        Err(LoopFault::Wires) => last(6, b"! wires\n", outside),
        Err(LoopFault::Sink) => Err(Stop::Sink),
        Err(LoopFault::NoMemory(want)) => Err(Stop::NoMemory(want)),
    }
}

// Listens, and serves with the keys of a store.
#[tactic(auto, using(crate::proofs::RunEnds::nothing_looped))]
fn served<O: Journal>(
    alloc: Global,
    store: KeyStore,
    command: &ApplicationCommand<'_>,
    outside: &mut O,
) -> Result<Status, Stop>
    ensures ends { EndsService store (O.told outside.old) (O.told outside.new) (end_of_run result) }
{
    match socket_of(alloc, command.application) {
        Ok(socket) => {
            let plan = plan_of(&command.line, socket.as_str());
            let stopped = serve_application(alloc, store, &plan, outside);
            ended(stopped, outside)
        }
        Err(want) => Err(Stop::NoMemory(want)),
    }
}

// No key of the pair holds.
fn no_key<O: Outside>(
    alloc: Global,
    engine: EtcsNumber,
    rbc: EtcsNumber,
    outside: &mut O,
) -> Result<Status, Stop>
    ensures does { Does (says_last 4 (keyless_line engine rbc)) (O.told outside.old) (O.told outside.new) (end_of_run result) }
{
    let words = [
        Plain(b"keys"),
        Plain(b"none"),
        Decimal(engine.get() as u64),
        Decimal(rbc.get() as u64),
    ];
    say_keys(alloc, &words, outside)
}

// Dials, with the key of the pair.
#[tactic(auto, using(crate::proofs::RunEnds::nothing_looped))]
fn dialled<O: Journal>(
    alloc: Global,
    pair: &PairKey,
    command: &ApplicationCommand<'_>,
    outside: &mut O,
) -> Result<Status, Stop>
    ensures ends { EndsService (pair_entries pair.now) (O.told outside.old) (O.told outside.new) (end_of_run result) }
{
    match socket_of(alloc, command.application) {
        Ok(socket) => {
            let plan = plan_of(&command.line, socket.as_str());
            let stopped = call_application(alloc, pair, &plan, outside);
            ended(stopped, outside)
        }
        Err(want) => Err(Stop::NoMemory(want)),
    }
}

// Calls, where a store has a key of the pair: the clock is asked once, for the moment at which it is to hold.
fn called<O: Journal>(
    alloc: Global,
    store: &KeyStore,
    engine: EtcsNumber,
    rbc: EtcsNumber,
    command: &ApplicationCommand<'_>,
    outside: &mut O,
) -> Result<Status, Stop>
    ensures ends { EndsCall engine rbc store.now (O.told outside.old) (O.told outside.new) (end_of_run result) }
{
    let now = Moment::new(outside.moment());
    match store.find(engine, rbc, now) {
        Some(kmac) => {
            let pair = PairKey::new(engine, rbc, kmac);
            dialled(alloc, &pair, command, outside)
        }
        None => no_key(alloc, engine, rbc, outside),
    }
}

/// The loop of a command with an application, with the keys of a store.
pub(crate) fn loop_with<O: Journal>(
    alloc: Global,
    store: KeyStore,
    command: &ApplicationCommand<'_>,
    outside: &mut O,
) -> Result<Status, Stop>
    ensures ends { EndsWithKeys (application_view command.now) store (O.told outside.old) (O.told outside.new) (end_of_run result) }
{
    match command.line {
        LineCommand::Serve { .. } => served(alloc, store, command, outside),
        LineCommand::Call { engine, rbc, .. } => {
            called(alloc, &store, engine, rbc, command, outside)
        }
    }
}
