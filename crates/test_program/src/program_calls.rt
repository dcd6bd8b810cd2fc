//! `serve` and `call` by their words, where a call of the wires or a write of the sink fails: how they end, what is printed, and where
//! the record of calls ends.

use crate::program_off_line::clock_at_0;
use er_base::{NoMemory, Octets};
use er_program::{Status, run};
use er_users::{SafeUser, Silent};
use link_memory::{Act, MemoryCabinet, MemorySink, MemoryWires};
use link_trait::{Happening, Wires};
use outside::Parts;
use rand_core::SeedableRng;
use rand_pcg::Lcg64Xsh32;
use std::alloc::Global;
use std::test::Fail;

const KEYS: &[u8] = b"version = 1
[[key]]
engine = 5
rbc = 9
kmac = \"0123456789abcdef23456789abcdef01456789abcdef0123\"
";

// The frame by which a station is set up.
const SET_UP: [u8; 6] = [0x7e, 0x01, 0x3f, 0xeb, 0xdf, 0x7e];

const SERVE: [&str; 5] = ["serve", "keys", "here", "9", "9"];

const CALL: [&str; 6] = ["call", "keys", "there", "5", "9", "9"];

// A run: the call of the wires that fails, the write of the sink that fails, the status, the letters of what is printed, and how many
// calls of the wires were made.
type Row = (u64, u64, u8, &'static str, u64);

// A peer is accepted, and its set-up frame comes. The calls are a listen, two turns, a read, a write and a turn that has nothing more.
const SERVED: [Row; 12] = [
    (1, 0, 6, "!", 1),
    (2, 0, 6, "h!", 2),
    (3, 0, 6, "ha!", 3),
    (4, 0, 0, "haf", 5),
    (5, 0, 0, "haof", 6),
    (6, 0, 6, "hao!", 6),
    (7, 0, 0, "hao", 6),
    (0, 1, 5, "", 1),
    (0, 2, 5, "h", 2),
    (0, 3, 5, "ha", 4),
    (0, 4, 0, "hao", 6),
    (1, 1, 5, "", 1),
];

// The calls are a dial, a write and a turn that has nothing more. Where the write fails, the one connection is closed.
const CALLED: [Row; 8] = [
    (1, 0, 6, "!", 1),
    (2, 0, 0, "hcf", 2),
    (3, 0, 6, "hc!", 3),
    (4, 0, 0, "hc", 3),
    (0, 1, 5, "", 1),
    (0, 2, 5, "h", 1),
    (0, 3, 0, "hc", 3),
    (1, 1, 5, "", 1),
];

// What a letter stands for.
fn lines(letter: u8) -> &'static [u8] {
    match letter {
        b'h' => b"trace 1 7 15 128 1000 5 40000\n",
        b'a' => b"> 0 1 answer 9 7dbcf3ee33a70be6\n",
        b'o' => b"> 0 1 octets 7e013febdf7e\n< 1 octets 7e017383577e\n",
        b'c' => b"> 0 1 call 5 9 7dbcf3ee33a70be6\n< 1 octets 7e013febdf7e\n",
        b'f' => b"> 0 1 fault\n< 1 released 1 6 local\n",
        _ => b"! wires\n",
    }
}

// Whether the text is what the letters stand for.
fn is_spelled(text: &[u8], letters: &str) -> bool {
    let mut rest = text;
    for letter in letters.as_bytes() {
        match rest.strip_prefix(lines(*letter)) {
            Some(behind) => rest = behind,
            None => return false,
        }
    }
    rest.is_empty()
}

// A cabinet with the key file.
fn cabinet(alloc: Global) -> Result<MemoryCabinet, NoMemory> {
    let mut cabinet = MemoryCabinet::new(alloc);
    cabinet.put("keys", KEYS)?;
    Ok(cabinet)
}

// What happens while the words are done: to `serve` a peer comes with its set-up frame, to `call` nothing happens.
fn acts(alloc: Global, words: &[&str]) -> Result<Vec<Act>, NoMemory> {
    let mut acts = Vec::new(alloc);
    if words.len() == SERVE.len() {
        acts.push(Act::Accept)?;
        let octets = Octets::new(Vec::from_slice(alloc, &SET_UP)?);
        acts.push(Act::Bring { conn: 1, octets })?;
    }
    Ok(acts)
}

// Wires at which two calls fail.
fn wires(
    alloc: Global,
    acts: Vec<Act>,
    failing: u64,
    behind: u64,
) -> Result<MemoryWires, NoMemory> {
    let mut wires = MemoryWires::new(alloc, acts, 65_536, 100, 1_000)?;
    wires.fail(failing)?;
    wires.fail(behind)?;
    Ok(wires)
}

// How the words end over these wires.
fn ended(
    alloc: Global,
    text: &[&str],
    wires: &mut MemoryWires,
    sink: &mut MemorySink,
) -> Result<Status, NoMemory> {
    let mut words = Vec::new(alloc);
    for word in text {
        words.push(String::from_str(alloc, word)?)?;
    }
    let mut cabinet = cabinet(alloc)?;
    let mut clock = clock_at_0(alloc)?;
    let mut randoms = Lcg64Xsh32::seed_from_u64(1);
    let mut users: Vec<Box<dyn SafeUser>> = Vec::new(alloc);
    users.push(Box::new(alloc, Silent::new())?)?;
    let mut parts = Parts::new(&mut cabinet, sink, wires, &mut clock, &mut randoms);
    Ok(run(alloc, words.as_slice(), users, &mut parts))
}

// Whether the next call is the one that is to fail, so that as many were made as stand before it.
fn is_next_to_fail(wires: &mut MemoryWires) -> bool {
    wires.turn(None) == Happening::Failed && wires.turn(None) != Happening::Failed
}

fn ends_so(alloc: Global, words: &[&str], row: &Row) -> Result<bool, NoMemory> {
    let (failing, failing_write, status, letters, calls) = *row;
    let mut wires = wires(alloc, acts(alloc, words)?, failing, calls.saturating_add(1))?;
    let mut sink = MemorySink::with_capacity(alloc, 1_000)?;
    sink.fail(failing_write)?;
    let ended = ended(alloc, words, &mut wires, &mut sink)?;
    Ok(ended == Status(status) && is_spelled(sink.held(), letters) && is_next_to_fail(&mut wires))
}

#[test]
fn each_call_of_serve_fails_by_itself(rt: HostRuntime) -> Result<(), Fail> {
    for row in &SERVED {
        assert!(rt; ends_so(rt.alloc(), &SERVE, row)?, "{} {}", row.0, row.1);
    }
    Ok(())
}

#[test]
fn each_call_of_call_fails_by_itself(rt: HostRuntime) -> Result<(), Fail> {
    for row in &CALLED {
        assert!(rt; ends_so(rt.alloc(), &CALL, row)?, "{} {}", row.0, row.1);
    }
    Ok(())
}

// Whether the text is what the letters stand for, or a beginning of it with the line that memory ran out; the whole is a beginning too.
fn is_beginning(text: &[u8], letters: &str) -> bool {
    let mut rest = text;
    for letter in letters.as_bytes() {
        match rest.strip_prefix(lines(*letter)) {
            Some(behind) => rest = behind,
            None => return rest == b"! memory\n".as_slice(),
        }
    }
    rest.is_empty() || rest == b"! memory\n".as_slice()
}

// Whether the words are done whole, or end with status 7 behind a beginning of what they print. Where the test itself finds no memory,
// nothing is to be seen.
fn stands_after_want(alloc: Global, words: &[&str], letters: &str) -> Result<bool, NoMemory> {
    let mut wires = wires(alloc, acts(alloc, words)?, 0, 0)?;
    let mut sink = MemorySink::with_capacity(alloc, 1_000)?;
    let ended = ended(alloc, words, &mut wires, &mut sink)?;
    let is_whole = is_spelled(sink.held(), letters);
    Ok(is_beginning(sink.held(), letters) && ended == Status(if is_whole { 0 } else { 7 }))
}

// It is run by hand, with one allocation after another that is refused.
#[test]
fn what_stands_after_want_of_memory(rt: HostRuntime) -> Result<(), Fail> {
    for (words, letters) in [(SERVE.as_slice(), "hao"), (CALL.as_slice(), "hc")] {
        assert!(rt; stands_after_want(rt.alloc(), words, letters).unwrap_or(true));
    }
    Ok(())
}
