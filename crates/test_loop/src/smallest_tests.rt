//! The smallest loops that serve.

use crate::serving::{HEADER, Ran, clock_at_0, plan, randoms_behind};
use crate::train::centre;
use er_users::{SafeUser, Silent};
use key_store::KeyStore;
use link_memory::{Act, MemoryCabinet, MemorySink, MemoryWires};
use outside::Parts;
use readiness_loop::{LoopStop, Served, serve};
use std::alloc::Global;
use std::test::Fail;

// How many users are handed in, how many turns are to be done, and what is printed behind the header.
const SMALLEST: [(u8, u64, &str); 3] = [
    (1, 1, "> 0 1 answer 9 7dbcf3ee33a70be6\n"),
    (0, 1, "> 0 1 unserved 0\n"),
    (1, 0, ""),
];

// A peer is accepted.
fn accepting(alloc: Global) -> Result<MemoryWires, Fail> {
    let mut acts = Vec::new(alloc);
    acts.push(Act::Accept)?;
    Ok(MemoryWires::new(alloc, acts, 4096, 100, 1000)?)
}

// A run with so many users, and so many turns.
fn smallest(alloc: Global, users: u8, turns: u64) -> Result<Ran, Fail> {
    let mut wires = accepting(alloc)?;
    let mut clock = clock_at_0(alloc)?;
    let mut sink = MemorySink::with_capacity(alloc, 1000)?;
    let mut randoms = randoms_behind(0);
    let keys = KeyStore::from_bytes(alloc, b"version = 2")?;
    let mut minds: Vec<Box<dyn SafeUser>> = Vec::new(alloc);
    for _ in 0..users {
        minds.push(Box::new(alloc, Silent::new())?)?;
    }
    let mut cabinet = MemoryCabinet::new(alloc);
    let mut outside = Parts::new(
        &mut cabinet,
        &mut sink,
        &mut wires,
        &mut clock,
        &mut randoms,
    );
    let end = serve(
        alloc,
        &keys,
        &plan(turns),
        "here",
        centre(),
        minds,
        &mut outside,
    );
    Ok(Ran { end, sink })
}

// Whether a run does its turns, and prints the header and that.
fn prints(alloc: Global, users: u8, turns: u64, behind: &str) -> Result<bool, Fail> {
    let ran = smallest(alloc, users, turns)?;
    let why = LoopStop::Turns;
    let is_done = ran.end == Ok(Served { turns, why });
    Ok(is_done && ran.sink.held().strip_prefix(HEADER) == Some(behind.as_bytes()))
}

#[test]
fn the_smallest_loop_that_serves(rt: HostRuntime) -> Result<(), Fail> {
    for (users, turns, behind) in SMALLEST {
        assert!(rt; prints(rt.alloc(), users, turns, behind)?);
    }
    Ok(())
}
