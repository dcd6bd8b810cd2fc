//! Reads what comes from an application, line by line.

ghost use Rattle.std.specs.Prelude.{◌≡◌, ◌<◌, ◌≤◌, [], length, take, Some, None, IfOk, IfSome};
ghost use Rattle.er_base.specs.declared.why.Why.TheVariants.{Long};
ghost use Rattle.application_lines.specs.declared.application_line.ApplicationLine.TheVariants.{Faulty};
ghost use Rattle.application_lines.specs.Streams.{next_line_number};
ghost use Rattle.application_lines.specs.Standings.{at_first_line, line_standing_from, stands_behind_long, says_from};
ghost use Rattle.application_lines.specs.Taking.{cut_length, lines_taken, pieces_cut, IsApplicationLineInRange};

use crate::application_line::ApplicationLine;
use crate::first_piece::first_piece;
use er_base::{NoMemory, Room, Why};
use std::alloc::Global;
use std::marker::Model;

/// The most octets of a line, its LF not counted.
const MOST_OCTETS: usize = 4_096;

/// How many octets were taken, and the line that they ended or made too long, if any.
#[derive(Debug, Drop)]
pub struct TakenLine {
    /// How many octets were taken.
    pub used: usize,
    /// The line.
    pub line: Option<ApplicationLine>,
}

/// Reads the lines of an application from octets in pieces of any size. A contract sees where it stands: the number of the line that goes on, and
/// the octets of that line so far, unless it is too long.
#[derive(Drop)]
pub struct LineReader {
    number: u64,
    held: Room,
    // Whether the line has more octets than it may have.
    long: bool,
}

impl Model for LineReader {
    ghost use Rattle.std.specs.Prelude.{◌≡◌};
    ghost use Rattle.application_lines.specs.Standings.{LineStanding};
    ghost use Rattle.application_lines.specs.Taking.{line_standing_kept};

    ghost Value = { LineStanding };

    ghost view = { λ r. line_standing_kept r.number r.held.items r.long };

    ghost invariant = { λ r. r.held.capacity ≡ 4096 };
}

// The number of the next line; the greatest where it would be greater.
fn next_number(number: u64) -> u64
    ensures { result ≡ next_line_number number }
{
    number.saturating_add(1)
}

impl LineReader {
    /// Nothing came.
    pub fn new(alloc: Global) -> Result<LineReader, NoMemory>
        ensures { IfOk result (λ reader. reader ≡ at_first_line) }
    {
        Ok(LineReader {
            number: 1,
            held: Room::with_capacity(alloc, MOST_OCTETS)?,
            long: false,
        })
    }

    /// As if nothing had come: another application is heard.
    pub fn restart(&mut self)
        ensures { self.new ≡ at_first_line }
    {
        self.held.clear();
        self.long = false;
        self.number = 1;
    }

    /// Takes octets up to the first that ends a line or makes it too long. After want of memory the reader is of no more use.
    pub fn take(&mut self, alloc: Global, octets: &[u8]) -> Result<TakenLine, NoMemory>
        ensures within { IfOk result (λ taken. taken.used ≤ length octets.now) }
        ensures moves { IfOk result (λ taken. 0 < length octets.now → 0 < taken.used) }
        ensures stands { IfOk result (λ taken. self.new ≡ line_standing_from self.old (take taken.used octets.now)) }
        ensures says { IfOk result (λ taken. says_from self.old (take taken.used octets.now) ≡ lines_taken taken.line) }
        ensures range { IfOk result (λ taken. IfSome taken.line (λ line. IsApplicationLineInRange line)) }
    {
        let (piece, ended) = first_piece(octets);
        if self.long {
            let used = self.pass(piece, ended);
            return Ok(TakenLine { used, line: None });
        }
        if piece.len() > self.held.free() {
            let used = piece.len();
            return Ok(TakenLine {
                used,
                line: Some(self.give_up()),
            });
        }
        self.held.put(piece);
        if !ended {
            let used = piece.len();
            return Ok(TakenLine { used, line: None });
        }
        let line = ApplicationLine::read(alloc, self.number, self.held.held())?;
        self.begin_next();
        Ok(TakenLine {
            used: piece.len() + 1,
            line: Some(line),
        })
    }

    // The line has more octets than it may have: they are held no longer.
    fn give_up(&mut self) -> ApplicationLine
        ensures told { result ≡ Faulty self.old.number Long }
        ensures stands { self.new ≡ record { number = self.old.number; held = None } }
    {
        self.held.clear();
        self.long = true;
        ApplicationLine::Faulty {
            line: self.number,
            why: Why::Long,
        }
    }

    // An LF came.
    fn begin_next(&mut self)
        ensures { self.new ≡ record { number = next_line_number self.old.number; held = Some [] } }
    {
        self.held.clear();
        self.long = false;
        self.number = next_number(self.number);
    }

    // The piece goes on with a line that is too long.
    fn pass(&mut self, piece: &[u8], ended: bool) -> usize
        requires long { self.old.held ≡ None }
        ensures used { result ≡ cut_length piece.now ended }
        ensures stands { self.new ≡ stands_behind_long self.old.number (pieces_cut piece.now ended) }
    {
        if !ended {
            return piece.len();
        }
        self.begin_next();
        piece.len() + 1
    }
}
