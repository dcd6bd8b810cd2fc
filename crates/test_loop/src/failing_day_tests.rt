//! A small day of three trains, in which one call of the wires fails.

use crate::lines::lines_of;
use crate::script::Script;
use crate::serving::{Ran, bring, served};
use crate::train::{keys, trains};
use er_base::NoMemory;
use key_store::KeyStore;
use link_memory::Act;
use readiness_loop::LoopFault;
use std::alloc::Global;
use std::test::Fail;

// The rounds in which each train speaks, from its call until all its reports were said back.
const ROUNDS: u8 = 9;

// What is printed of a connection where its wire fails.
const FAULT: &[u8] = b"> fault\n< released 1 6 local\n";

// The three trains are accepted, and speak in turn.
fn small_day(alloc: Global, keys: &KeyStore) -> Result<Script, NoMemory> {
    let mut trains = trains(alloc, 3, 0, 3)?;
    let mut script = Script::new(alloc);
    for _ in 0..3 {
        script.accept()?;
    }
    for _ in 0..ROUNDS {
        for place in 0..3 {
            script.speak(alloc, keys, place, &mut trains)?;
        }
    }
    Ok(script)
}

// The same acts once more.
fn copies(alloc: Global, acts: &[Act]) -> Result<Vec<Act>, NoMemory> {
    let mut copies = Vec::new(alloc);
    for act in acts {
        match act {
            Act::Bring { conn, octets } => copies.push(bring(alloc, *conn, octets.as_slice())?)?,
            _ => copies.push(Act::Accept)?,
        }
    }
    Ok(copies)
}

// Whether each train is connected, and each of its three reports is taken and said back.
fn is_whole(text: &[u8]) -> bool {
    let mut connected: u32 = 0;
    let mut taken: u32 = 0;
    for line in text.split(|octet| *octet == b'\n') {
        if line.starts_with(b"< ") {
            let said = line.get(4..).unwrap_or(&[]);
            connected = connected.saturating_add(u32::from(said.starts_with(b"connected")));
            taken = taken.saturating_add(u32::from(said.starts_with(b"taken")));
        }
    }
    connected == 3 && taken == 9
}

// Whether the lines of a connection are those of a run without a failure, or a beginning of them behind which its wire fails.
fn fault_of(lines: &[u8], without: &[u8]) -> Option<bool> {
    if lines == without {
        return Some(false);
    }
    let before = lines.strip_suffix(FAULT)?;
    if without.starts_with(before) {
        return Some(true);
    }
    None
}

// Whether the wire of one of the three connections failed, and all other lines are as without that.
fn one_wire_fails(alloc: Global, text: &[u8], without: &[u8]) -> Result<bool, NoMemory> {
    let mut failed: u32 = 0;
    for conn in [b"1", b"2", b"3"] {
        let lines = lines_of(alloc, text, conn)?;
        let whole = lines_of(alloc, without, conn)?;
        match fault_of(lines.as_slice(), whole.as_slice()) {
            Some(is_failed) => failed = failed.saturating_add(u32::from(is_failed)),
            None => return Ok(false),
        }
    }
    Ok(failed == 1)
}

// Whether a run with one failure is as it has to be: a turn or the listen broke the loop off in its text, or one wire failed.
fn fails_by_itself(alloc: Global, ran: &Ran, without: &[u8]) -> Result<bool, NoMemory> {
    match ran.end {
        Ok(_) => one_wire_fails(alloc, ran.sink.held(), without),
        Err(LoopFault::Wires) => Ok(without.starts_with(ran.sink.held())),
        Err(_) => Ok(false),
    }
}

// How many calls the wires have where each of them fails by itself as it has to; None where one doesn't.
fn calls_that_fail(alloc: Global, keys: &KeyStore, acts: &[Act]) -> Result<Option<u64>, NoMemory> {
    let without = served(alloc, keys, copies(alloc, acts)?, 3, 0)?;
    let text = without.sink.held();
    if !is_whole(text) {
        return Ok(None);
    }
    for call in 1..1_000 {
        let ran = served(alloc, keys, copies(alloc, acts)?, 3, call)?;
        if ran.end == without.end && ran.sink.held() == text {
            return Ok(Some(call.saturating_sub(1)));
        }
        if !fails_by_itself(alloc, &ran, text)? {
            return Ok(None);
        }
    }
    Ok(None)
}

// Whether as many calls fail as the day comes to: those of its script, and the turn at the end.
fn each_fails(alloc: Global) -> Result<bool, Fail> {
    let keys = keys(alloc)?;
    let day = small_day(alloc, &keys)?;
    let failed = calls_that_fail(alloc, &keys, day.acts.as_slice())?;
    Ok(failed == Some(day.calls.saturating_add(1)))
}

#[test]
fn each_call_of_a_small_day_fails_by_itself(rt: HostRuntime) -> Result<(), Fail> {
    assert!(rt; each_fails(rt.alloc())?);
    Ok(())
}
