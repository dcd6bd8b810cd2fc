//! The objects in memory that commands run over.

use er_program::{FileCabinet, MachineClock, StdoutSink};
use link_trait::{Cabinet, Clock, FetchFault, Sink};
use std::fs::OpenFile;
use std::io::{ErrorKind, Write};
use std::test::Fail;
use std::{fs, io};

// The octets of the longest file that is fetched.
const MOST_FILE_OCTETS: usize = 33_554_432;

#[test]
fn a_written_file_is_fetched_and_a_missing_one_fails(rt: HostRuntime) -> Result<(), Fail> {
    fs::write(&rt, "fetched.txt", "one\ntwo")?;
    let mut cabinet = FileCabinet::new(rt);
    let octets = cabinet.fetch(rt.alloc(), "fetched.txt")?;
    assert!(rt; octets.as_slice() == b"one\ntwo".as_slice());
    let missing = cabinet.fetch(rt.alloc(), "no such file");
    assert!(rt; matches!(missing, Err(FetchFault::Failed)));
    fs::remove_file(&rt, "fetched.txt")?;
    Ok(())
}

#[test]
fn the_longest_file_is_fetched_and_one_octet_more_fails(rt: HostRuntime) -> Result<(), Fail> {
    let file = fs::create(&rt, "long.txt")?;
    let mut cabinet = FileCabinet::new(rt);
    file.set_len(MOST_FILE_OCTETS as u64)?;
    let longest = cabinet.fetch(rt.alloc(), "long.txt")?.len();
    assert!(rt; longest == MOST_FILE_OCTETS);
    file.set_len(MOST_FILE_OCTETS as u64 + 1)?;
    let longer = cabinet.fetch(rt.alloc(), "long.txt");
    assert!(rt; matches!(longer, Err(FetchFault::Failed)));
    fs::remove_file(&rt, "long.txt")?;
    Ok(())
}

#[test]
fn the_system_has_a_clock(rt: HostRuntime) {
    let mut clock = MachineClock::new(rt);
    let moment = clock.now();
    assert!(rt; 1 <= moment && moment <= 1_000_000_000_000_000);
}

// A writer that is interrupted at every other write, and takes one octet at each of the others.
#[derive(Drop)]
struct SlowWriter {
    interrupted: bool,
}

impl Write for SlowWriter {
    fn write(&mut self, piece: &[u8]) -> io::Result<usize> {
        self.interrupted = !self.interrupted;
        if self.interrupted {
            return Err(io::Error::from(ErrorKind::Interrupted));
        }
        Ok(piece.len().min(1))
    }

    fn flush(&mut self) -> io::Result<()> {
        Ok(())
    }
}

#[test]
fn pieces_that_are_written(rt: HostRuntime) {
    let mut printing = StdoutSink::new(io::writer(&rt));
    let mut slow = StdoutSink::new(SlowWriter { interrupted: false });
    assert!(rt; printing.write(b"a piece\n").is_ok());
    assert!(rt; slow.write(b"a piece\n").is_ok());
}

#[test]
fn a_writer_that_takes_two_octets_and_then_none(rt: HostRuntime) {
    let mut room = [0; 2];
    let mut sink = StdoutSink::new(room.as_mut_slice());
    assert!(rt; sink.write(b"one").is_err());
}
