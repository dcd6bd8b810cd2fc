//! The command `audit`, over objects in memory.

use crate::program_off_line::ends_so;
use er_base::NoMemory;
use link_memory::MemoryCabinet;
use std::alloc::Global;
use std::test::Fail;

const WORDS: [&str; 3] = ["audit", "keys", "tap"];

// The set-up frames of a link, the CR with AU1 and the CC with AU2.
const TAP: &str = "tap 1
link 1 5 9 0
octets 1 e 7e013febdf7e7e0100010009ef0000000120c0010742000005010102030405060708f7007e
octets 1 r 7e017383577e7e0320010009df0001000120c0010725000009011122334455667788bd1745640dd6c19468f17e
";

// A key file without keys, and a tap.
fn cabinet(alloc: Global) -> Result<MemoryCabinet, NoMemory> {
    let mut cabinet = MemoryCabinet::new(alloc);
    cabinet.put("keys", b"version = 1\n")?;
    cabinet.put("tap", TAP.as_bytes())?;
    Ok(cabinet)
}

const TOLD: &[u8] = b"1 e au1 good\n1 r au2 nokey\n";

#[test]
fn two_lines_and_a_sink_that_fails(rt: HostRuntime) -> Result<(), Fail> {
    let mut cabinet = cabinet(rt.alloc())?;
    assert!(rt; ends_so(rt.alloc(), &WORDS, &mut cabinet, 0, 0, TOLD)?);
    assert!(rt; ends_so(rt.alloc(), &WORDS, &mut cabinet, 2, 5, b"1 e au1 good\n")?);
    Ok(())
}

#[test]
fn a_tap_that_is_not_fetched(rt: HostRuntime) -> Result<(), Fail> {
    let mut cabinet = cabinet(rt.alloc())?;
    cabinet.fail(2)?;
    assert!(rt; ends_so(rt.alloc(), &WORDS, &mut cabinet, 0, 2, b"! fetch tap\n")?);
    Ok(())
}
