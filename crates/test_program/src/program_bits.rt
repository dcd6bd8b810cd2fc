//! The command `bits`, over objects in memory.

use crate::program_off_line::ends_so;
use er_base::NoMemory;
use link_memory::MemoryCabinet;
use std::alloc::Global;
use std::test::Fail;

const WORDS: [&str; 2] = ["bits", "x"];

// Two frames that share a flag, and the first octet of a third; as another program wrote them.
const TWO_FRAMES: [u8; 14] = [
    0x7e, 0x01, 0x5f, 0xd6, 0x77, 0xfb, 0xfd, 0x7e, 0x01, 0x5f, 0xd6, 0x77, 0xfb, 0xfd,
];

const TWO_FRAMES_TEXT: &str = "frame 01 3f\nframe 01 3f\nbits 112 frames 2\n";

fn cabinet(alloc: Global, octets: &[u8]) -> Result<MemoryCabinet, NoMemory> {
    let mut cabinet = MemoryCabinet::new(alloc);
    cabinet.put("x", octets)?;
    Ok(cabinet)
}

#[test]
fn two_frames_and_a_sink_that_fails(rt: HostRuntime) -> Result<(), Fail> {
    let mut cabinet = cabinet(rt.alloc(), &TWO_FRAMES)?;
    for (failing, status, printed) in [(0, 0, TWO_FRAMES_TEXT), (2, 5, "frame 01 3f\n")] {
        let printed = printed.as_bytes();
        assert!(rt; ends_so(rt.alloc(), &WORDS, &mut cabinet, failing, status, printed)?);
    }
    Ok(())
}

// A file of so many flags.
fn flags(alloc: Global, count: usize) -> Result<MemoryCabinet, NoMemory> {
    let mut octets = Vec::new(alloc);
    octets.resize(count, 0x7e)?;
    cabinet(alloc, octets.as_slice())
}

#[test]
fn a_line_that_is_too_long(rt: HostRuntime) -> Result<(), Fail> {
    let mut cabinet = flags(rt.alloc(), 16_777_217)?;
    assert!(rt; ends_so(rt.alloc(), &WORDS, &mut cabinet, 0, 3, b"! line 0 long\n")?);
    Ok(())
}
