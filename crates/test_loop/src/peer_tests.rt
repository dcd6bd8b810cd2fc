//! Peers: one that closes in mid-frame, one too many, one for whom no user is left, and one that takes nothing.

use crate::serving::{HEADER, SET_UP, bring, clock_at_0, plan, randoms_behind, served};
use crate::train::{centre, keys};
use er_base::NoMemory;
use er_users::{SafeUser, Silent};
use link_memory::{Act, MemoryCabinet, MemorySink, MemoryWires};
use outside::Parts;
use readiness_loop::serve;
use std::alloc::Global;
use std::test::Fail;

// How many octets of the frame come before the peer closes, and what is printed behind the header.
const CLOSINGS: [(usize, &[u8]); 6] = [
    (
        1,
        b"> 0 1 answer 9 7dbcf3ee33a70be6\n> 0 1 octets 7e\n> 0 1 ended\n< 1 released 1 5 local\n",
    ),
    (
        2,
        b"> 0 1 answer 9 7dbcf3ee33a70be6\n> 0 1 octets 7e01\n> 0 1 ended\n< 1 released 1 5 local\n",
    ),
    (
        3,
        b"> 0 1 answer 9 7dbcf3ee33a70be6\n> 0 1 octets 7e013f\n> 0 1 ended\n< 1 released 1 5 local\n",
    ),
    (
        4,
        b"> 0 1 answer 9 7dbcf3ee33a70be6\n> 0 1 octets 7e013feb\n> 0 1 ended\n< 1 released 1 5 local\n",
    ),
    (
        5,
        b"> 0 1 answer 9 7dbcf3ee33a70be6\n> 0 1 octets 7e013febdf\n> 0 1 ended\n< 1 released 1 5 local\n",
    ),
    (
        6,
        b"> 0 1 answer 9 7dbcf3ee33a70be6\n> 0 1 octets 7e013febdf7e\n< 1 octets 7e017383577e\n> 0 1 ended\n< 1 released 1 5 local\n",
    ),
];

// How many connections are accepted and how many users are handed in, and the last line that is printed then.
const ACCEPTS: [(u16, u16, &[u8]); 4] = [
    (1, 0, b"\n> 0 1 unserved 0\n"),
    (2, 1, b"\n> 0 2 unserved 1\n"),
    (257, 257, b"\n> 0 257 full 256\n"),
    (257, 256, b"\n> 0 257 full 256\n"),
];

// Whether a run begins with the header and ends with that text.
fn ends_so(alloc: Global, acts: Vec<Act>, users: u16, end: &[u8]) -> Result<bool, Fail> {
    let keys = keys(alloc)?;
    let ran = served(alloc, &keys, acts, users, 0)?;
    let text = ran.sink.held();
    Ok(ran.end.is_ok() && text.starts_with(HEADER) && text.ends_with(end))
}

fn closes_so(alloc: Global, octets: usize, printed: &[u8]) -> Result<bool, Fail> {
    let mut acts = Vec::new(alloc);
    acts.push(Act::Accept)?;
    acts.push(bring(alloc, 1, SET_UP.get(..octets).unwrap_or(&[]))?)?;
    acts.push(Act::Shut { conn: 1 })?;
    let keys = keys(alloc)?;
    let ran = served(alloc, &keys, acts, 1, 0)?;
    Ok(ran.end.is_ok() && ran.sink.held().strip_prefix(HEADER) == Some(printed))
}

fn accepts_so(alloc: Global, accepts: u16, users: u16, last: &[u8]) -> Result<bool, Fail> {
    let mut acts = Vec::new(alloc);
    for _ in 0..accepts {
        acts.push(Act::Accept)?;
    }
    ends_so(alloc, acts, users, last)
}

#[test]
fn a_peer_closes_in_mid_frame(rt: HostRuntime) -> Result<(), Fail> {
    for (octets, printed) in CLOSINGS {
        assert!(rt; closes_so(rt.alloc(), octets, printed)?, "{octets}");
    }
    Ok(())
}

#[test]
fn one_connection_too_many_and_no_user_left(rt: HostRuntime) -> Result<(), Fail> {
    for (accepts, users, last) in ACCEPTS {
        assert!(rt;
            accepts_so(rt.alloc(), accepts, users, last)?,
            "{accepts} {users}"
        );
    }
    Ok(())
}

// So many set-up frames, whose answers are the first that are more than may wait.
const FRAMES: u32 = 43_691;

// How many lines of a text tell that a set-up frame is answered.
fn answers_of(text: &[u8]) -> u32 {
    let mut count: u32 = 0;
    for line in text.split(|octet| *octet == b'\n') {
        if line == b"< 1 octets 7e017383577e".as_slice() {
            count = count.saturating_add(1);
        }
    }
    count
}

// Wires of a peer that sends so many set-up frames, and takes nothing.
fn full_wires(alloc: Global) -> Result<MemoryWires, NoMemory> {
    let mut octets = Vec::new(alloc);
    for _ in 0..FRAMES {
        octets.extend_from_slice(&SET_UP)?;
    }
    let mut acts = Vec::new(alloc);
    acts.push(Act::Accept)?;
    acts.push(bring(alloc, 1, octets.as_slice())?)?;
    let wires = MemoryWires::new(alloc, acts, 0, 1_000, 10_000_000)?;
    Ok(wires)
}

// What is printed of that peer.
fn stalled(alloc: Global) -> Result<MemorySink, Fail> {
    let keys = keys(alloc)?;
    let mut wires = full_wires(alloc)?;
    let mut clock = clock_at_0(alloc)?;
    let mut sink = MemorySink::with_capacity(alloc, 4_000_000)?;
    let mut users: Vec<Box<dyn SafeUser>> = Vec::new(alloc);
    users.push(Box::new(alloc, Silent::new())?)?;
    let mut randoms = randoms_behind(0);
    let mut cabinet = MemoryCabinet::new(alloc);
    let mut outside = Parts::new(
        &mut cabinet,
        &mut sink,
        &mut wires,
        &mut clock,
        &mut randoms,
    );
    serve(
        alloc,
        &keys,
        &plan(1_000),
        "here",
        centre(),
        users,
        &mut outside,
    )?;
    Ok(sink)
}

fn is_stalled(alloc: Global) -> Result<bool, Fail> {
    let sink = stalled(alloc)?;
    let end = b"> 0 1 stalled\n< 1 released 1 7 local\n";
    Ok(answers_of(sink.held()) == FRAMES && sink.held().ends_with(end))
}

#[test]
fn a_peer_that_takes_nothing_is_stalled(rt: HostRuntime) -> Result<(), Fail> {
    assert!(rt; is_stalled(rt.alloc())?);
    Ok(())
}
