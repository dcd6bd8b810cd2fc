//! The standard streams of a program that was started without some of them.
//!
//! The system gives the least free number to the next file or socket that is opened. Without the standard output the first socket would be
//! number 1, and the recording would go to the peer.

use std::fs::File;
use std::os::fd::AsFd;
use std::{fs, io};

// The error of the system for a number at which nothing is open.
const NOTHING_IS_OPEN: i32 = 9;

/// What stands where the standard input and the standard error were closed. It stays there until this is let go.
#[derive(Drop)]
pub(crate) struct StandIns {
    _input: Option<File>,
    _error: Option<File>,
}

// Whether nothing is open at a standard stream's number: then it has no duplicate.
fn is_closed<S: AsFd>(stream: &S) -> bool {
    match stream.as_fd().try_clone_to_owned() {
        Ok(_duplicate) => false,
        Err(error) => error.raw_os_error() == Some(NOTHING_IS_OPEN),
    }
}

// What is opened at the least free number, where nothing is read and nothing can be written.
fn stand_in(rt: HostRuntime, is_closed: bool) -> io::Result<Option<File>> {
    if !is_closed {
        return Ok(None);
    }
    match fs::open(&rt, "/dev/null") {
        Ok(file) => Ok(Some(file)),
        Err(error) => Err(error),
    }
}

/// Sees to it that something is open at each standard stream. None where the standard output is closed, or nothing can be opened in
/// place of another one.
pub(crate) fn stand_ins(rt: HostRuntime) -> Option<StandIns> {
    if is_closed(&rt.stdout()) {
        return None;
    }
    // The input's number is the least.
    let input = stand_in(rt, is_closed(&rt.stdin())).ok()?;
    let error = stand_in(rt, is_closed(&rt.stderr())).ok()?;
    Some(StandIns {
        _input: input,
        _error: error,
    })
}
