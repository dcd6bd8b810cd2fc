//! The files of the file system.

ghost use Rattle.std.specs.Prelude.{◌≡◌, ◌≤◌, ◌-◌, ◌^◌, IfOk, IfSome, None, vec_len};
ghost use Rattle.link_trait.specs.Outside.{faults_after_fetch};
ghost use Rattle.er_program.specs.FileFaults.{IsFaultOf};

use er_base::NoMemory;
use link_trait::{Cabinet, FetchFault};
use std::alloc::Global;
use std::fs;
use std::io::{Error, Read};
use std::marker::Model;
use std::rt::Files;

/// The most octets that a file may have to be fetched by a [`FileCabinet`].
pub const MOST_FILE_OCTETS: usize = 33_554_432;

/// A cabinet of the files of the file system, each named by its path.
///
/// It fails where a file can't be opened or read, and where it has more than 33,554,432 octets. It
/// tells nothing of what it holds and was asked for. A clause sees it as its count of faults. For people it keeps why its
/// newest failed fetch failed, of which no clause speaks.
#[derive(Drop)]
pub struct FileCabinet<R: Files + Drop> {
    rt: R,
    faults: u64,
    why: Option<FileFault>,
}

/// Why the octets of a file can't be had.
#[derive(Clone, Copy, Debug)]
pub enum FileFault {
    /// The file has more than 33,554,432 octets.
    Long,
    /// What the system answered.
    System(Error),
    /// Want of memory.
    NoMemory(NoMemory),
}

impl<R: Files + Drop> Model for FileCabinet<R> {
    ghost use Rattle.std.specs.Prelude.{ℕ};

    ghost Value = { ℕ };

    ghost view = { λ c. c.faults };
}

impl<R: Files + Drop> FileCabinet<R> {
    /// A cabinet of the files that this runtime reaches. It takes no memory.
    pub fn new(rt: R) -> FileCabinet<R>
        ensures { result ≡ 0 }
    {
        FileCabinet {
            rt,
            faults: 0,
            why: None,
        }
    }

    /// Why the newest fetch that failed did so, where one did.
    pub fn why(&self) -> Option<FileFault> {
        self.why
    }
}

impl<R: Files + Drop> Cabinet for FileCabinet<R> {
    ghost state = { λ count. record { files = None; asked = None; faults = count } };

    fn fetch(&mut self, alloc: Global, name: &str) -> Result<Vec<u8>, FetchFault>
        ensures most { IfOk result (λ octets. vec_len octets ≤ MOST_FILE_OCTETS) }
        ensures faults { self.new ≡ faults_after_fetch result self.old }
        ensures bounded { self.new ≤ 2 ^ 64 - 1 }
    {
        let _faults = self.faults;
        match whole_file(&self.rt, alloc, name) {
            Ok(octets) => Ok(octets),
            Err(FileFault::NoMemory(want)) => Err(FetchFault::NoMemory(want)),
            Err(why) => {
                self.why = Some(why);
                self.faults = self.faults.saturating_add(1);
                Err(FetchFault::Failed)
            }
        }
    }
}

// All octets of the file of that name.
fn whole_file<R: Files>(rt: &R, alloc: Global, name: &str) -> Result<Vec<u8>, FileFault>
    ensures { IfOk result (λ octets. vec_len octets ≤ MOST_FILE_OCTETS) }
{
    match fs::open(rt, name) {
        Ok(file) => all_octets(alloc, file),
        Err(error) => Err(fault_of(error)),
    }
}

// All octets that a reader has left. It fails where they are more than a file may have: one octet more
// than these is asked for, so that a longer file is told from one of just this length.
fn all_octets<F: Read + Drop>(alloc: Global, file: F) -> Result<Vec<u8>, FileFault>
    ensures most { IfOk result (λ octets. vec_len octets ≤ MOST_FILE_OCTETS) }
    ensures whole { IfOk result (λ octets. IfSome (F.remaining file) (λ left. octets.items ≡ left)) }
{
    let mut octets = Vec::new(alloc);
    let mut piece = file.take(MOST_FILE_OCTETS as u64 + 1);
    match piece.read_to_end(&mut octets) {
        Ok(_) if octets.len() <= MOST_FILE_OCTETS => Ok(octets),
        Ok(_) => Err(FileFault::Long),
        Err(error) => Err(fault_of(error)),
    }
}

// Want of memory is told from every other error.
fn fault_of(error: Error) -> FileFault
    ensures { IsFaultOf error result }
{
    match NoMemory::of_system(&error) {
        Some(want) => FileFault::NoMemory(want),
        None => FileFault::System(error),
    }
}
