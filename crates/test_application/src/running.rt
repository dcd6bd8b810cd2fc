//! Runs of a loop with an application, in memory.

ghost use Rattle.er_settings.specs.Ranges.{AllAllowed};

use crate::attended::AttendedWires;
use crate::train::{KMAC, centre, engine};
use application_loop::{LoopFault, ServiceEnd, ServicePlan, call_application, serve_application};
use er_base::NoMemory;
use er_settings::Settings;
use key_store::KeyStore;
use link_memory::{Act, MemoryCabinet, MemoryClock, MemorySink, MemoryWires};
use outside::Parts;
use rand_core::{Rng, SeedableRng};
use rand_pcg::Lcg64Xsh32;
use safety_automaton::PairKey;
use session_keys::Kmac;
use std::alloc::Global;
use std::test::Fail;

// The key file at the start.
const KEYS: &[u8] = b"version = 1
[[key]]
engine = 5
rbc = 9
kmac = \"0123456789abcdef23456789abcdef01456789abcdef0123\"
";

// The key file of a radio block centre from then on.
const LATER_KEYS: &[u8] = b"version = 2
[[key]]
engine = 5
rbc = 9
kmac = \"0123456789abcdef23456789abcdef01456789abcdef0123\"
from = 0
to = 100
[[key]]
engine = 5
rbc = 9
kmac = \"23456789abcdef010123456789abcdef456789abcdef0123\"
from = 101
to = 200
";

/// The keys at the start.
pub(crate) fn keys(alloc: Global) -> Result<KeyStore, Fail> {
    Ok(KeyStore::from_bytes(alloc, KEYS)?)
}

/// The generator of a run.
pub(crate) fn randoms() -> Lcg64Xsh32 {
    Lcg64Xsh32::seed_from_u64(1)
}

/// The first word of a run.
pub(crate) fn first_word() -> u64 {
    randoms().next_u64()
}

fn plan() -> ServicePlan<'static> {
    ServicePlan {
        settings: Settings::usual(),
        rbc: centre(),
        turns: 1_000,
        address: "here",
        application: "unix:application",
        key_file: "keys",
    }
}

/// What a run came to: how it ended, what it recorded, and its wires.
#[derive(Drop)]
pub(crate) struct Ran {
    pub(crate) end: Result<ServiceEnd, LoopFault>,
    pub(crate) sink: MemorySink,
    pub(crate) wires: AttendedWires,
}

impl Ran {
    /// What was written to the application that has this number in the script.
    pub(crate) fn told(&self, alloc: Global, number: u64) -> Result<Vec<u8>, NoMemory> {
        let mut told = Vec::new(alloc);
        self.wires.wires.given(number, &mut told)?;
        Ok(told)
    }
}

// A run over these acts, of which the listed numbers are applications, with room for so many octets at first, and with this key file from then on: as a radio
// block centre, or as an engine.
fn run(
    alloc: Global,
    acts: Vec<Act>,
    applications: &[u64],
    room: usize,
    key_file: &[u8],
    is_centre: bool,
) -> Result<Ran, Fail> {
    let inner = MemoryWires::new(alloc, acts, room, 2_000, 800_000)?;
    let mut wires = AttendedWires::new(alloc, inner, applications)?;
    let mut clock = MemoryClock::new(Vec::from_slice(alloc, &[0])?);
    let mut sink = MemorySink::with_capacity(alloc, 100_000)?;
    let mut randoms = randoms();
    let mut cabinet = MemoryCabinet::new(alloc);
    cabinet.put("keys", key_file)?;
    let store = keys(alloc)?;
    let mut outside = Parts::new(
        &mut cabinet,
        &mut sink,
        &mut wires,
        &mut clock,
        &mut randoms,
    );
    let end = if is_centre {
        serve_application(alloc, store, &plan(), &mut outside)
    } else {
        let pair = PairKey::new(engine(), centre(), Kmac::new(KMAC));
        call_application(alloc, &pair, &plan(), &mut outside)
    };
    Ok(Ran { end, sink, wires })
}

/// A run as a radio block centre.
pub(crate) fn serve(
    alloc: Global,
    acts: Vec<Act>,
    applications: &[u64],
    room: usize,
) -> Result<Ran, Fail> {
    run(alloc, acts, applications, room, LATER_KEYS, true)
}

/// A run as an engine. Its key file has a version that is unknown.
pub(crate) fn call(alloc: Global, acts: Vec<Act>, applications: &[u64]) -> Result<Ran, Fail> {
    run(alloc, acts, applications, 60_000, b"version = 3", false)
}
