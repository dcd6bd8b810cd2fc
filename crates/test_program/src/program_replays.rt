//! A replay, where a fetch or a write of the sink fails.

use crate::program_off_line::{run_off_line, words};
use er_base::NoMemory;
use er_program::Status;
use link_memory::{MemoryCabinet, MemorySink};
use link_trait::{Cabinet, Sink};
use std::alloc::Global;
use std::test::Fail;

const KEYS: &[u8] = b"version = 1\n";

// The set-up time is spent before the train says who it is.
const TRACE: &[u8] = b"trace 1 7 15 128 1000 5 40000
> 0 1 answer 9 0000000000000001
> 0 1 octets 7e013febdf7e
> 40000 1 tick
";

const WHOLE: &[u8] = b"trace 1 7 15 128 1000 5 40000
> 0 1 answer 9 0000000000000001
> 0 1 octets 7e013febdf7e
< 1 octets 7e017383577e
> 40000 1 tick
< 1 released 6 1 local
< 1 octets 7e035331457e
";

// The fetch that fails, how the replay ends and what it printed, and how many files were asked for.
const FETCHES: [(u64, u8, &[u8], u64); 3] = [
    (1, 2, b"! fetch keys\n", 1),
    (2, 2, b"! fetch trace\n", 2),
    (3, 0, WHOLE, 2),
];

// The most writes that are tried.
const MOST_WRITES: u64 = 100;

// A cabinet of the two files.
fn cabinet(alloc: Global) -> Result<MemoryCabinet, NoMemory> {
    let mut cabinet = MemoryCabinet::new(alloc);
    cabinet.put("keys", KEYS)?;
    cabinet.put("trace", TRACE)?;
    Ok(cabinet)
}

// `replay keys trace`.
fn replayed(
    alloc: Global,
    cabinet: &mut MemoryCabinet,
    sink: &mut MemorySink,
) -> Result<Status, NoMemory> {
    let words = words(alloc, &["replay", "keys", "trace"])?;
    run_off_line(alloc, words.as_slice(), cabinet, sink)
}

// Whether the next call is the one that is to fail, of which the one behind succeeds: so many were made.
fn is_next_to_fail(alloc: Global, cabinet: &mut MemoryCabinet) -> bool {
    cabinet.fetch(alloc, "keys").is_err() && cabinet.fetch(alloc, "keys").is_ok()
}

// Whether a replay ends so, printed that, and asked for so many files.
fn is_fetched_so(
    alloc: Global,
    failing: u64,
    status: u8,
    printed: &[u8],
    asked: u64,
) -> Result<bool, NoMemory> {
    let mut cabinet = cabinet(alloc)?;
    cabinet.fail(failing)?;
    cabinet.fail(asked.saturating_add(1))?;
    let mut sink = MemorySink::with_capacity(alloc, 1_000)?;
    let ended = replayed(alloc, &mut cabinet, &mut sink)?;
    Ok(ended == Status(status) && sink.held() == printed && is_next_to_fail(alloc, &mut cabinet))
}

// How a replay ends and what it printed where this write of the sink fails, and then one behind it: None where a write was tried
// behind the one that failed.
fn broken_off(alloc: Global, failing: u64) -> Result<Option<(Status, MemorySink)>, NoMemory> {
    let mut cabinet = cabinet(alloc)?;
    let mut sink = MemorySink::with_capacity(alloc, 1_000)?;
    sink.fail(failing)?;
    sink.fail(failing.saturating_add(1))?;
    let ended = replayed(alloc, &mut cabinet, &mut sink)?;
    if ended == Status(5) && sink.write(b"x").is_ok() {
        return Ok(None);
    }
    Ok(Some((ended, sink)))
}

// How many writes there are, where each of them fails by itself as it has to: the status is 5, what was printed is a beginning of the
// whole text, and nothing is written behind it; None where one doesn't.
fn writes_that_fail(alloc: Global) -> Result<Option<u64>, NoMemory> {
    for write in 1..MOST_WRITES {
        let Some((ended, sink)) = broken_off(alloc, write)? else {
            return Ok(None);
        };
        if ended == Status(0) {
            return Ok(if sink.held() == WHOLE {
                Some(write.saturating_sub(1))
            } else {
                None
            });
        }
        if ended != Status(5) || !WHOLE.starts_with(sink.held()) || sink.held() == WHOLE {
            return Ok(None);
        }
    }
    Ok(None)
}

#[test]
fn each_fetch_fails_by_itself(rt: HostRuntime) -> Result<(), Fail> {
    for (failing, status, printed, asked) in FETCHES {
        assert!(rt;
            is_fetched_so(rt.alloc(), failing, status, printed, asked)?,
            "{failing}"
        );
    }
    Ok(())
}

#[test]
fn each_write_of_a_replay_fails_by_itself(rt: HostRuntime) -> Result<(), Fail> {
    assert_eq!(rt; writes_that_fail(rt.alloc())?, Some(4));
    Ok(())
}
