//! The whole program, over objects in memory.

use crate::program_off_line::ends_so;
use er_base::NoMemory;
use link_memory::MemoryCabinet;
use std::alloc::Global;
use std::test::Fail;

const KEY: &str = "0123456789abcdef23456789abcdef01456789abcdef0123";

const ONE_SEALED_MESSAGE: &str = "drill 1 safe;fixed 1 5 9 K K;send 1 e 41;pass 1 e;";

const TWO_EMPTY_PASSES: &str = "drill 1 safe;fixed 1 5 9 K K;pass 1 e;pass 1 r;";

// A file, and the status and the text of its drill, as the grammar and the tables of answers say.
type Row = (&'static str, u8, &'static str);

const ROWS: [Row; 7] = [
    (
        ONE_SEALED_MESSAGE,
        0,
        "1 r accepted 41;1 end passes 1 waiting 0 0;",
    ),
    ("", 3, "! line 1 header;"),
    ("drill 1 safe;", 0, ""),
    ("drill 1 safe;set window 8;", 3, "! line 2 value;"),
    ("drill 1 safe;pass 1 e;", 3, "! line 2 nolink;"),
    (
        "drill 1 safe;fixed 1 5 9 K K;fixed 1 5 9 K K;",
        3,
        "! line 3 twice;",
    ),
    (
        "drill 1 safe;fixed 1 5 9 K K;pass 1 r;fixed 1 5 9 K K;pass 1 e;",
        3,
        "1 r empty;! line 4 twice;",
    ),
];

// A file, the write that is to fail, and what the sink holds at the end: the lines of each step come as soon as it is
// done.
type FailingRow = (&'static str, u64, &'static str);

const FAILING_ROWS: [FailingRow; 3] = [
    (ONE_SEALED_MESSAGE, 1, ""),
    (ONE_SEALED_MESSAGE, 2, "1 r accepted 41;"),
    (TWO_EMPTY_PASSES, 2, "1 e empty;"),
];

// A text in which each K stands for 48 digits, and each semicolon for LF.
fn spelled_out(alloc: Global, text: &str) -> Result<Vec<u8>, NoMemory> {
    let mut octets = Vec::new(alloc);
    for octet in text.as_bytes() {
        match *octet {
            b'K' => octets.extend_from_slice(KEY.as_bytes())?,
            b';' => octets.push(b'\n')?,
            other => octets.push(other)?,
        }
    }
    Ok(octets)
}

fn cabinet(alloc: Global, text: &str) -> Result<MemoryCabinet, NoMemory> {
    let octets = spelled_out(alloc, text)?;
    let mut cabinet = MemoryCabinet::new(alloc);
    cabinet.put("x", octets.as_slice())?;
    Ok(cabinet)
}

const DRILL: [&str; 2] = ["drill", "x"];

// Whether the drill of a file ends with this status and prints this, where this write of the sink fails.
fn drills(
    alloc: Global,
    file: &str,
    failing: u64,
    status: u8,
    text: &str,
) -> Result<bool, NoMemory> {
    let mut cabinet = cabinet(alloc, file)?;
    let text = spelled_out(alloc, text)?;
    ends_so(
        alloc,
        &DRILL,
        &mut cabinet,
        failing,
        status,
        text.as_slice(),
    )
}

#[test]
fn files_with_their_statuses_and_texts(rt: HostRuntime) -> Result<(), Fail> {
    for (file, status, text) in ROWS {
        assert!(rt; drills(rt.alloc(), file, 0, status, text)?, "{file}");
    }
    Ok(())
}

#[test]
fn a_sink_that_fails(rt: HostRuntime) -> Result<(), Fail> {
    for (file, write, text) in FAILING_ROWS {
        assert!(rt; drills(rt.alloc(), file, write, 5, text)?, "{file}");
    }
    Ok(())
}

#[test]
fn words_that_fit_no_command_and_a_fetch_that_fails(rt: HostRuntime) -> Result<(), Fail> {
    let mut cabinet = cabinet(rt.alloc(), ONE_SEALED_MESSAGE)?;
    cabinet.fail(1)?;
    assert!(rt; ends_so(rt.alloc(), &["drill"], &mut cabinet, 0, 1, b"! usage\n")?);
    assert!(rt; ends_so(rt.alloc(), &DRILL, &mut cabinet, 0, 2, b"! fetch x\n")?);
    Ok(())
}

#[test]
fn a_call_whose_pair_has_no_key(rt: HostRuntime) -> Result<(), Fail> {
    let mut cabinet = cabinet(rt.alloc(), "version = 1;")?;
    let words = ["call", "x", "127.0.0.1:4711", "5", "9", "1"];
    assert!(rt; ends_so(rt.alloc(), &words, &mut cabinet, 0, 4, b"! keys none 5 9\n")?);
    Ok(())
}
