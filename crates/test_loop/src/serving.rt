//! Runs of `serve` in memory.

ghost use Rattle.er_settings.specs.Ranges.{AllAllowed};

use crate::script::Script;
use crate::train::centre;
use er_base::{NoMemory, Octets};
use er_settings::Settings;
use er_users::{Echo, SafeUser};
use key_store::KeyStore;
use link_memory::{Act, MemoryCabinet, MemoryClock, MemorySink, MemoryWires};
use outside::Parts;
use rand_core::{Rng, SeedableRng};
use rand_pcg::Lcg64Xsh32;
use readiness_loop::{LinePlan, LoopFault, Served, serve};
use std::alloc::Global;
use std::test::Fail;

/// The header of what is printed with the usual settings.
pub(crate) const HEADER: &[u8] = b"trace 1 7 15 128 1000 5 40000\n";

/// The frame by which a station is set up.
pub(crate) const SET_UP: [u8; 6] = [0x7e, 0x01, 0x3f, 0xeb, 0xdf, 0x7e];

/// The usual settings, and at most so many turns.
pub(crate) fn plan(turns: u64) -> LinePlan
    ensures { AllAllowed result.settings }
{
    LinePlan {
        settings: Settings::usual(),
        turns,
    }
}

/// The generator of a run, behind so many of its words.
pub(crate) fn randoms_behind(words: u8) -> Lcg64Xsh32 {
    let mut randoms = Lcg64Xsh32::seed_from_u64(1);
    for _ in 0..words {
        let _word = randoms.next_u64();
    }
    randoms
}

/// A clock that goes on for a while, less than T1 in all.
pub(crate) fn clock(alloc: Global) -> Result<MemoryClock, NoMemory> {
    let moments = Vec::from_slice(alloc, &[0, 3, 20, 120, 400])?;
    Ok(MemoryClock::new(moments))
}

/// A clock at which it is always the moment 0.
pub(crate) fn clock_at_0(alloc: Global) -> Result<MemoryClock, NoMemory> {
    let moments = Vec::from_slice(alloc, &[0])?;
    Ok(MemoryClock::new(moments))
}

/// Octets come to a connection.
pub(crate) fn bring(alloc: Global, conn: u64, octets: &[u8]) -> Result<Act, NoMemory> {
    let octets = Octets::new(Vec::from_slice(alloc, octets)?);
    Ok(Act::Bring { conn, octets })
}

/// What a run came to: how it ended, and what it printed.
#[derive(Drop)]
pub(crate) struct Ran {
    pub(crate) end: Result<Served, LoopFault>,
    pub(crate) sink: MemorySink,
}

/// A run with so many Echos at the moment 0, in which one call of the wires fails; there is no call 0.
pub(crate) fn served(
    alloc: Global,
    keys: &KeyStore,
    acts: Vec<Act>,
    echos: u16,
    failing: u64,
) -> Result<Ran, NoMemory> {
    let mut wires = MemoryWires::new(alloc, acts, 65_536, 1_000, 65_536)?;
    wires.fail(failing)?;
    let mut clock = clock_at_0(alloc)?;
    let mut sink = MemorySink::with_capacity(alloc, 65_536)?;
    let mut randoms = randoms_behind(0);
    let mut users: Vec<Box<dyn SafeUser>> = Vec::new(alloc);
    for _ in 0..echos {
        users.push(Box::new(alloc, Echo::new())?)?;
    }
    let mut cabinet = MemoryCabinet::new(alloc);
    let mut outside = Parts::new(
        &mut cabinet,
        &mut sink,
        &mut wires,
        &mut clock,
        &mut randoms,
    );
    let end = serve(
        alloc,
        keys,
        &plan(1_000),
        "here",
        centre(),
        users,
        &mut outside,
    );
    Ok(Ran { end, sink })
}

/// What `serve` prints of a script, up to the end of its wires, with these users.
pub(crate) fn serve_in_memory(
    alloc: Global,
    keys: &KeyStore,
    script: Script,
    users: Vec<Box<dyn SafeUser>>,
    randoms: &mut Lcg64Xsh32,
) -> Result<MemorySink, Fail> {
    let Script { acts, failing, .. } = script;
    let mut wires = MemoryWires::new(alloc, acts, 65_536, 1_000, 65_536)?;
    wires.fail(failing)?;
    let mut clock = clock(alloc)?;
    let mut sink = MemorySink::with_capacity(alloc, 262_144)?;
    let mut cabinet = MemoryCabinet::new(alloc);
    let mut outside = Parts::new(&mut cabinet, &mut sink, &mut wires, &mut clock, randoms);
    serve(
        alloc,
        keys,
        &plan(1_000),
        "here",
        centre(),
        users,
        &mut outside,
    )?;
    Ok(sink)
}
