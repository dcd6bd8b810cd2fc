//! The readiness loop as a radio block centre of so many trains. Each train is connected and sends position reports of 24 octets, the next
//! once the last was said back, as the loop's users say each of them back. The loop serves live trains once, and then the record of what
//! they sent, so often as is wanted: what it does is the same each time, but the trains cost nothing. All is at one moment. Behind each
//! round of the record it prints one line of all that was until then: the messages that the live trains heard back, the turns of the loop,
//! the octets that it wrote to the wires, and those of its journal.

mod loop_objects;
mod record;
mod train;
mod train_wires;

use crate::numbers::Numbers;
use crate::trains::loop_objects::{LoopClock, LoopSink, NoFiles};
use crate::trains::train::centre;
use crate::trains::train_wires::TrainWires;
use er_base::NoMemory;
use er_settings::Settings;
use er_users::{Echo, SafeUser};
use key_store::KeyStore;
use outside::Parts;
use rand_core::SeedableRng;
use rand_pcg::Lcg64Xsh32;
use readiness_loop::{LinePlan, LoopFault, serve};
use std::alloc::Global;
use std::io;

// The key of the trains, which protects nothing.
const KEY_FILE: &[u8] = b"version = 1

[[key]]
engine = 5
rbc = 9
kmac = \"0123456789abcdef23456789abcdef01456789abcdef0123\"
";

// Serves all trains once, with the same random words each time: how many turns it took.
fn serve_once(
    alloc: Global,
    keys: &KeyStore,
    trains: u64,
    wires: &mut TrainWires,
    sink: &mut LoopSink,
) -> Result<u64, LoopFault> {
    let mut users: Vec<Box<dyn SafeUser>> = Vec::new(alloc);
    for _ in 0..trains {
        let user: Box<dyn SafeUser> = Box::new(alloc, Echo::new()).map_err(NoMemory::from)?;
        users.push(user).map_err(NoMemory::from)?;
    }
    let plan = LinePlan {
        settings: Settings::usual(),
        turns: u64::MAX,
    };
    let mut words = Lcg64Xsh32::seed_from_u64(1);
    let mut files = NoFiles;
    let mut clock = LoopClock;
    let mut outside = Parts::new(&mut files, sink, wires, &mut clock, &mut words);
    let served = serve(alloc, keys, &plan, "here", centre(), users, &mut outside)?;
    Ok(served.turns)
}

// Serves the record of the live trains so often: how many turns it took.
fn serve_record(
    alloc: Global,
    keys: &KeyStore,
    trains: u64,
    times: u64,
    wires: &mut TrainWires,
    sink: &mut LoopSink,
) -> Result<u64, LoopFault> {
    let mut turns = 0_u64;
    for _ in 0..times {
        wires.rewind();
        let more = serve_once(alloc, keys, trains, wires, sink)?;
        turns = turns.saturating_add(more);
    }
    Ok(turns)
}

/// Measures the loop.
pub fn measure(rt: HostRuntime, numbers: &Numbers) -> io::Result<()> {
    let [trains, reports, times, rounds] = numbers.or([2, 4, 1, 1]);
    let trains = trains.min(256);
    let Ok(keys) = KeyStore::from_bytes(rt.alloc(), KEY_FILE) else {
        return Err(io::Error::from(io::ErrorKind::OutOfMemory));
    };
    let Ok(mut wires) = TrainWires::new(rt.alloc(), trains, reports) else {
        return Err(io::Error::from(io::ErrorKind::OutOfMemory));
    };
    let mut sink = LoopSink { octets: 0 };
    let Ok(mut turns) = serve_once(rt.alloc(), &keys, trains, &mut wires, &mut sink) else {
        return Err(io::Error::from(io::ErrorKind::Other));
    };
    for _ in 0..rounds {
        let Ok(more) = serve_record(rt.alloc(), &keys, trains, times, &mut wires, &mut sink) else {
            return Err(io::Error::from(io::ErrorKind::Other));
        };
        turns = turns.saturating_add(more);
        println!(rt;
            "echoed {} turns {turns} written {} journal {}",
            wires.record.echoed(),
            wires.written,
            sink.octets
        )?;
    }
    Ok(())
}
