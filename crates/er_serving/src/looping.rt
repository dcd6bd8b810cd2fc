//! The readiness loop of a command, with its keys: as a radio block centre, which listens, or as an engine, which calls one.

ghost use Rattle.std.specs.Prelude.{◌≡◌, ◌∷◌, [], ℕ, List, Some, length, map};
ghost use Rattle.safety_automaton.specs.Keys.{KmacEntry, key_at};
ghost use Rattle.outside.specs.Acts.{Asked};
ghost use Rattle.outside.specs.Doings.{Told, Did};
ghost use Rattle.outside.specs.Scripts.{Does, says_last};
ghost use Rattle.er_statuses.specs.ScriptEnds.{end_of_run};
ghost use Rattle.er_serving.specs.LineCommands.{Serve, Call};
ghost use Rattle.er_serving.specs.LineRuns.{given_to_loop, no_key_line, with_clock};
ghost use Rattle.er_serving.specs.LineWriting.{WiresTold, LoopTold, LoopEnds};
ghost use Rattle.er_serving.specs.OutsideViews.{KeepsCabinet};
ghost use Rattle.er_serving.specs.Outsides.{traffic_at};

use crate::pair::Pair;
use er_base::PrintedWord::{Decimal, Plain};
use er_base::{EtcsNumber, Moment};
use er_settings::Settings;
use er_statuses::acting::{say, say_keys};
use er_statuses::{Status, Stop};
use er_users::SafeUser;
use journal::Journal;
use key_store::KeyStore;
use link_trait::Failed;
use outside::Outside;
use readiness_loop::{LinePlan, LoopFault, Served, dial, serve};
use safety_automaton::{KeyFinder, PairKey};
use session_keys::Kmac;
use std::alloc::Global;

// The wires failed, which is told last.
fn wires_failed<O: Outside>(outside: &mut O) -> Result<Status, Stop>
    ensures { WiresTold (O.told outside.old) (O.told outside.new) result }
{
    match say(b"! wires\n", outside) {
        Ok(()) => Ok(Status(6)),
        Err(Failed) => Err(Stop::Sink),
    }
}

// How the loop ended.
fn ended<O: Outside>(served: Result<Served, LoopFault>, outside: &mut O) -> Result<Status, Stop>
    ensures { LoopTold served (O.told outside.old) (O.told outside.new) result }
{
    match served {
        Ok(_) => Ok(Status(0)),
        Err(LoopFault::Wires) => wires_failed(outside),
        Err(LoopFault::Sink) => Err(Stop::Sink),
        Err(LoopFault::NoMemory(want)) => Err(Stop::NoMemory(want)),
    }
}

/// Listens at the address, and serves with the keys of a store.
pub(crate) fn serve_with<O: Journal>(
    alloc: Global,
    store: &KeyStore,
    rbc: EtcsNumber,
    address: &str,
    turns: u64,
    users: Vec<Box<dyn SafeUser>>,
    outside: &mut O,
) -> Result<Status, Stop>
    ensures ends { (keys : List ℕ) → LoopEnds (Serve keys address.now rbc turns) store.now
        (given_to_loop (length users.items) (map mind users.items) (O.told outside.old).words) (traffic_at (O.told outside.old)) (traffic_at (O.told outside.new)) result }
    ensures keeps { KeepsCabinet (O.told outside.old) (O.told outside.new) }
{
    let plan = LinePlan {
        settings: Settings::usual(),
        turns,
    };
    let served = serve(alloc, store, &plan, address, rbc, users, outside);
    ended(served, outside)
}

// No key of the pair holds.
fn no_key<O: Outside>(alloc: Global, pair: Pair, outside: &mut O) -> Result<Status, Stop>
    ensures does { Does (says_last 4 (no_key_line pair.engine pair.rbc)) (O.told outside.old) (O.told outside.new) (end_of_run result) }
{
    let words = [
        Plain(b"keys"),
        Plain(b"none"),
        Decimal(pair.engine.get() as u64),
        Decimal(pair.rbc.get() as u64),
    ];
    say_keys(alloc, &words, outside)
}

// Dials the address, with the key of the pair. The clock was asked for the moment at which it holds, and answered so `before` that.
fn dial_with<O: Journal>(
    alloc: Global,
    kmac: Kmac,
    pair: Pair,
    address: &str,
    turns: u64,
    users: Vec<Box<dyn SafeUser>>,
    outside: &mut O,
) -> Result<Status, Stop>
    ensures ends { (keys : List ℕ) (entries : List KmacEntry) (moment : ℕ) (before : Told)
        → Did before (O.told outside.old) (Asked moment ∷ []) → key_at entries moment pair.engine pair.rbc ≡ Some kmac
        → LoopEnds (Call keys address.now pair.engine pair.rbc turns) entries (given_to_loop (length users.items) (map mind users.items) before.words)
        (traffic_at before) (traffic_at (O.told outside.new)) result }
    ensures keeps { KeepsCabinet (O.told outside.old) (O.told outside.new) }
{
    let plan = LinePlan {
        settings: Settings::usual(),
        turns,
    };
    let pair = PairKey::new(pair.engine, pair.rbc, kmac);
    let served = dial(alloc, &pair, &plan, address, users, outside);
    ended(served, outside)
}

/// Calls at the address, where a store has a key of the pair: the clock is asked once, for the moment at which it is to hold.
pub(crate) fn call_with<O: Journal>(
    alloc: Global,
    store: &KeyStore,
    pair: Pair,
    address: &str,
    turns: u64,
    users: Vec<Box<dyn SafeUser>>,
    outside: &mut O,
) -> Result<Status, Stop>
    ensures ends { (keys : List ℕ) → LoopEnds (Call keys address.now pair.engine pair.rbc turns) store.now
        (given_to_loop (length users.items) (map mind users.items) (O.told outside.old).words) (traffic_at (O.told outside.old)) (traffic_at (O.told outside.new)) result }
    ensures keeps { KeepsCabinet (O.told outside.old) (O.told outside.new) }
{
    let now = Moment::new(outside.moment());
    match store.find(pair.engine, pair.rbc, now) {
        Some(kmac) => dial_with(alloc, kmac, pair, address, turns, users, outside),
        None => no_key(alloc, pair, outside),
    }
}
