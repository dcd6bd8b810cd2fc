//! What came to a line of an application.

ghost use Rattle.std.specs.Prelude.{◌≡◌, IfOk};
ghost use Rattle.er_base.specs.Words.{words_of};
ghost use Rattle.application_lines.specs.Requests.{request_said};
ghost use Rattle.application_lines.specs.Streams.{request_line_told};
ghost use Rattle.application_lines.specs.Taking.{IsApplicationLineInRange};

use crate::request::Request;
use crate::requests::read_request;
use er_base::{LineFault, NoMemory, Why};
use std::alloc::Global;

/// A line of an application, read.
#[derive(Debug, Drop)]
pub enum ApplicationLine {
    /// It asks for something.
    Asks(Request),
    /// It is out of the grammar, and is skipped.
    Faulty {
        /// Its number, counted from 1.
        line: u64,
        /// Its first fault.
        why: Why,
    },
}

impl ApplicationLine {
    /// Reads the line of this number.
    pub(crate) fn read(alloc: Global, number: u64, line: &[u8]) -> Result<ApplicationLine, NoMemory>
        ensures told { IfOk result (λ read. read ≡ request_line_told number (request_said (words_of line.now))) }
        ensures range { IfOk result (λ read. IsApplicationLineInRange read) }
    {
        match read_request(alloc, line) {
            Ok(request) => Ok(ApplicationLine::Asks(request)),
            Err(LineFault::Refused(why)) => Ok(ApplicationLine::Faulty { line: number, why }),
            Err(LineFault::NoMemory(want)) => Err(want),
        }
    }
}
