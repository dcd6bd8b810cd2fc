//! The standard output, or any other writer, as a sink.

ghost use Rattle.std.specs.Prelude.{◌≡◌, ◌≤◌, ◌-◌, ◌^◌, length, take, None};
ghost use Rattle.std.specs.Io.KnownBytes.{Appends};
ghost use Rattle.link_trait.specs.Outside.{faults_after_write};
ghost use Rattle.er_program.specs.WriterSinks.{IsWriteProgress, WritesPiece};

use link_trait::{Failed, Sink};
use std::io;
use std::io::{ErrorKind, Write};
use std::marker::Model;

/// A sink that writes to a writer, as the standard output is one.
///
/// It fails where a write of the writer gives an error or takes no octet; one that was interrupted is tried again. As a
/// sink it tells nothing of what it was given. A clause sees the octets that the writer holds, where that writer tells
/// them, and the count of faults.
#[derive(Drop)]
pub struct StdoutSink<W: Write + Drop> {
    writer: W,
    faults: u64,
}

impl<W: Write + Drop> Model for StdoutSink<W> {
    ghost use Rattle.er_program.specs.WriterSinks.{WriterSink};

    ghost Value = { WriterSink };

    ghost view = { λ s. record { contents = W.contents s.writer; faults = s.faults } };
}

impl<W: Write + Drop> StdoutSink<W> {
    /// A sink over this writer. It takes no memory.
    pub fn new(writer: W) -> StdoutSink<W>
        ensures contents { result.contents ≡ W.contents writer }
        ensures faults { result.faults ≡ 0 }
    {
        StdoutSink { writer, faults: 0 }
    }
}

// By how many octets a write brought the piece further: by none where it was interrupted, so that it is tried again.
// None where it gave another error or took no octet.
fn progress(answer: io::Result<usize>) -> Option<usize>
    ensures { IsWriteProgress answer result }
{
    match answer {
        Ok(0) => None,
        Ok(count) => Some(count),
        Err(error) if error.kind() == ErrorKind::Interrupted => Some(0),
        Err(_) => None,
    }
}

// Writes the piece by as many writes as it takes, and answers how many octets of it the writer took. They are all, save
// where a write gave an error or took no octet, or one after another was interrupted, 2^64 - 1 times in all.
fn octets_taken<W: Write>(writer: &mut W, piece: &[u8]) -> usize
    ensures most { result ≤ length piece.now }
    ensures taken { Appends (W.contents writer.old) (W.contents writer.new) (take result piece.now) }
{
    let mut taken = 0;
    for _ in 0..u64::MAX {
        if taken == piece.len() {
            break;
        }
        match progress(writer.write(&piece[taken..])) {
            Some(count) => taken += count,
            None => break,
        }
    }
    taken
}

impl<W: Write + Drop> Sink for StdoutSink<W> {
    ghost state = { λ s. record { held = None; faults = s.faults } };

    fn write(&mut self, piece: &[u8]) -> Result<(), Failed>
        ensures written { WritesPiece self.old.contents self.new.contents piece.now result }
        ensures faults { self.new.faults ≡ faults_after_write result self.old.faults }
        ensures bounded { self.new.faults ≤ 2 ^ 64 - 1 }
    {
        let _faults = self.faults;
        if octets_taken(&mut self.writer, piece) < piece.len() {
            self.faults = self.faults.saturating_add(1);
            return Err(Failed);
        }
        Ok(())
    }
}
