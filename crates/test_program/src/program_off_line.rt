//! Runs without wires, for the tests of the commands that need none.

use er_base::NoMemory;
use er_program::{Status, run};
use link_memory::{MemoryCabinet, MemoryClock, MemorySink, MemoryWires};
use outside::Parts;
use rand_core::SeedableRng;
use rand_pcg::Lcg64Xsh32;
use std::alloc::Global;

// A clock at which it is always the moment 0.
pub(crate) fn clock_at_0(alloc: Global) -> Result<MemoryClock, NoMemory> {
    let moments = Vec::from_slice(alloc, &[0])?;
    Ok(MemoryClock::new(moments))
}

// The words of a command.
pub(crate) fn words(alloc: Global, text: &[&str]) -> Result<Vec<String>, NoMemory> {
    let mut words = Vec::new(alloc);
    for word in text {
        words.push(String::from_str(alloc, word)?)?;
    }
    Ok(words)
}

// What the words ask for, where nothing is accepted.
pub(crate) fn run_off_line(
    alloc: Global,
    words: &[String],
    cabinet: &mut MemoryCabinet,
    sink: &mut MemorySink,
) -> Result<Status, NoMemory> {
    let mut wires = MemoryWires::new(alloc, Vec::new(alloc), 0, 8, 64)?;
    let mut clock = clock_at_0(alloc)?;
    let mut randoms = Lcg64Xsh32::seed_from_u64(1);
    let mut parts = Parts::new(cabinet, sink, &mut wires, &mut clock, &mut randoms);
    Ok(run(alloc, words, Vec::new(alloc), &mut parts))
}

// Whether the words end with this status and print this, where this write of the sink fails; there is no write 0.
pub(crate) fn ends_so(
    alloc: Global,
    text: &[&str],
    cabinet: &mut MemoryCabinet,
    failing: u64,
    status: u8,
    printed: &[u8],
) -> Result<bool, NoMemory> {
    let words = words(alloc, text)?;
    let mut sink = MemorySink::with_capacity(alloc, 1_000)?;
    sink.fail(failing)?;
    let answer = run_off_line(alloc, words.as_slice(), cabinet, &mut sink)?;
    Ok(answer == Status(status) && sink.held() == printed)
}
