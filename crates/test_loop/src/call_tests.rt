//! Calls: what comes of them before anything is heard, a frame that waits for room, and T1 that expires before a turn.

use crate::serving::{HEADER, SET_UP, clock, clock_at_0, plan, randoms_behind};
use crate::train::{KMAC, centre};
use er_base::{EtcsNumber, NoMemory};
use er_users::{SafeUser, Silent};
use link_memory::{Act, MemoryCabinet, MemoryClock, MemorySink, MemoryWires};
use outside::Parts;
use readiness_loop::{LoopFault, LoopStop, Served, dial};
use safety_automaton::PairKey;
use session_keys::Kmac;
use std::alloc::Global;
use std::test::Fail;

// What is printed of the call behind the header.
const CALL: &[u8] = b"> 0 1 call 5 9 7dbcf3ee33a70be6\n< 1 octets 7e013febdf7e\n";

const TICK: &[u8] = b"> 1000 1 tick\n< 1 octets 7e013febdf7e\n";

// The room of the wire where nothing happens, and how many octets of the frame are given then.
const GIVEN: [(usize, usize); 3] = [(0, 0), (4, 4), (6, 6)];

// The room of the wire at first, and the rooms that come behind a write that found none; how many octets of the frame are given then.
const ROOMS: [(usize, [usize; 2], usize); 6] = [
    (0, [0, 0], 0),
    (0, [6, 6], 6),
    (0, [1, 4], 5),
    (0, [1, 5], 6),
    (4, [1, 100], 6),
    (5, [0, 3], 6),
];

// The call of the wires that fails: the third and the fifth are turns. How many ticks are printed before it, and how many set-up frames
// are given.
const TURNS: [(u64, usize, usize); 2] = [(3, 0, 1), (5, 1, 2)];

// A clock at which T1 expires before the second turn: it is asked for the moment of the call, and before each turn.
fn clock_to_t1(alloc: Global) -> Result<MemoryClock, NoMemory> {
    let moments = Vec::from_slice(alloc, &[0, 0, 1_000])?;
    Ok(MemoryClock::new(moments))
}

// A connection is told as writable, though there is no room in it, before the set-up time of its end runs out, or not; how many turns are done then.
// Where it never was, nothing is owed to a peer that was never reached; else the octets that wait are kept until the closing moment.
const RELEASES: [(bool, u64); 2] = [(false, 1), (true, 3)];

// A clock at which the set-up time of the end runs out behind the first turn, and the closing moment comes later.
fn clock_past_set_up(alloc: Global) -> Result<MemoryClock, NoMemory> {
    let moments = Vec::from_slice(alloc, &[0, 0, 0, 40_000])?;
    Ok(MemoryClock::new(moments))
}

// How a call ended, what it printed, and what was given to its peer.
#[derive(Drop)]
struct Called {
    end: Result<Served, LoopFault>,
    sink: MemorySink,
    given: Vec<u8>,
}

// A call to the centre of at most so many turns, in which one call of the wires fails; there is no call 0.
fn play_call(
    alloc: Global,
    acts: Vec<Act>,
    room: usize,
    mut clock: MemoryClock,
    turns: u64,
    failing: u64,
) -> Result<Called, NoMemory> {
    let mut wires = MemoryWires::new(alloc, acts, room, 100, 1_000)?;
    wires.fail(failing)?;
    let mut sink = MemorySink::with_capacity(alloc, 1_000)?;
    let mut randoms = randoms_behind(0);
    let mut users: Vec<Box<dyn SafeUser>> = Vec::new(alloc);
    users.push(Box::new(alloc, Silent::new())?)?;
    let pair = PairKey::new(EtcsNumber::new(5), centre(), Kmac::new(KMAC));
    let mut cabinet = MemoryCabinet::new(alloc);
    let mut outside = Parts::new(
        &mut cabinet,
        &mut sink,
        &mut wires,
        &mut clock,
        &mut randoms,
    );
    let end = dial(alloc, &pair, &plan(turns), "there", users, &mut outside);
    let mut given = Vec::new(alloc);
    wires.given(1, &mut given)?;
    Ok(Called { end, sink, given })
}

// Whether the header, what is printed of the call, and so many ticks are the text.
fn is_printed(text: &[u8], ticks: usize) -> bool {
    let Some(lines) = text.strip_prefix(HEADER) else {
        return false;
    };
    match lines.strip_prefix(CALL) {
        Some(behind) if ticks == 0 => behind.is_empty(),
        Some(behind) => behind == TICK,
        None => false,
    }
}

// Whether so many set-up frames are all that was given.
fn are_frames(given: &[u8], frames: usize) -> bool {
    match frames {
        1 => given == SET_UP.as_slice(),
        _ => given.strip_prefix(SET_UP.as_slice()) == Some(SET_UP.as_slice()),
    }
}

fn is_given_so(alloc: Global, room: usize, octets: usize) -> Result<bool, NoMemory> {
    let called = play_call(alloc, Vec::new(alloc), room, clock(alloc)?, 1, 0)?;
    let why = LoopStop::Ended;
    Ok(
        called.end == Ok(Served { turns: 1, why })
            && is_printed(called.sink.held(), 0)
            && SET_UP.get(..octets) == Some(called.given.as_slice()),
    )
}

fn is_written_so(
    alloc: Global,
    first: usize,
    behind: [usize; 2],
    octets: usize,
) -> Result<bool, NoMemory> {
    let mut acts = Vec::new(alloc);
    for room in behind {
        acts.push(Act::Room { conn: 1, room })?;
    }
    let called = play_call(alloc, acts, first, clock_at_0(alloc)?, 1_000, 0)?;
    Ok(
        called.end.is_ok()
            && is_printed(called.sink.held(), 0)
            && SET_UP.get(..octets) == Some(called.given.as_slice()),
    )
}

fn is_sent_again(
    alloc: Global,
    failing: u64,
    ticks: usize,
    frames: usize,
) -> Result<bool, NoMemory> {
    let mut acts = Vec::new(alloc);
    acts.push(Act::Quiet)?;
    let called = play_call(alloc, acts, 1_000, clock_to_t1(alloc)?, 1_000, failing)?;
    Ok(
        called.end == Err(LoopFault::Wires)
            && is_printed(called.sink.held(), ticks)
            && are_frames(called.given.as_slice(), frames),
    )
}

// Whether a call into a wire without room, whose end is released as its set-up time runs out, is closed at once, or still waits.
fn is_released_so(alloc: Global, made: bool, turns: u64) -> Result<bool, NoMemory> {
    let mut acts = Vec::new(alloc);
    acts.push(if made {
        Act::Room { conn: 1, room: 0 }
    } else {
        Act::Quiet
    })?;
    acts.push(Act::Quiet)?;
    acts.push(Act::Quiet)?;
    let called = play_call(alloc, acts, 0, clock_past_set_up(alloc)?, 3, 0)?;
    let why = if made {
        LoopStop::Turns
    } else {
        LoopStop::Closed
    };
    Ok(called.end == Ok(Served { turns, why }) && called.given.is_empty())
}

#[test]
fn a_dial_that_was_never_made_ends_at_its_release(rt: HostRuntime) -> Result<(), Fail> {
    for (made, turns) in RELEASES {
        assert!(rt; is_released_so(rt.alloc(), made, turns)?, "{made}");
    }
    Ok(())
}

#[test]
fn a_call_gives_its_set_up_frame(rt: HostRuntime) -> Result<(), Fail> {
    for (room, octets) in GIVEN {
        assert!(rt; is_given_so(rt.alloc(), room, octets)?, "{room}");
    }
    Ok(())
}

#[test]
fn what_waits_is_written_when_room_comes(rt: HostRuntime) -> Result<(), Fail> {
    for (first, behind, octets) in ROOMS {
        assert!(rt;
            is_written_so(rt.alloc(), first, behind, octets)?,
            "{first} {octets}"
        );
    }
    Ok(())
}

#[test]
fn frames_are_sent_again_before_the_turn(rt: HostRuntime) -> Result<(), Fail> {
    for (failing, ticks, frames) in TURNS {
        assert!(rt;
            is_sent_again(rt.alloc(), failing, ticks, frames)?,
            "{failing}"
        );
    }
    Ok(())
}
