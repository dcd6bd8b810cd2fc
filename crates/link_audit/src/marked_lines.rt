//! The lines of a tap, each with a mark of one octet that tells lines of other links and sides at once: so each stream reads its own lines alone.

ghost use Rattle.std.specs.Prelude.{◌≡◌, ◌<◌, [], ◌++◌, drop, length, IfOk, IfSome, IsNone, MatchOption};
ghost use Rattle.tap_model.specs.Lines.{is_side, piece_of, stream_of};
ghost use Rattle.link_audit.specs.Marks.{mark_of_link_side, mark_in, marks_in};

use er_base::{NoMemory, Side};
use er_tap::{TapLine, TapStep};
use memchr::memchr;
use std::alloc::Global;
use std::marker::Model;

// The mark of the octets of a side of a link.
fn mark_of(link: u8, side: Side) -> u8
    ensures { result ≡ mark_of_link_side link side }
{
    match side {
        Side::E => link.wrapping_mul(2),
        Side::R => link.wrapping_mul(2).wrapping_add(1),
    }
}

// The mark of a line.
fn mark_in(line: &TapLine) -> u8
    ensures { result ≡ mark_in line.now.step }
{
    match &line.step {
        TapStep::Link { .. } => 0,
        TapStep::Octets { link, side, .. } => mark_of(*link, *side),
    }
}

// The marks of lines, in their order.
fn marks_of(alloc: Global, lines: &[TapLine]) -> Result<Vec<u8>, NoMemory>
    ensures { IfOk result (λ marks. marks.items ≡ marks_in lines.now) }
{
    let mut marks = Vec::with_capacity(alloc, lines.len())?;
    for line in lines {
        marks.push(mark_in(line))?;
    }
    Ok(marks)
}

// Whether two sides are one.
fn is_side(side: Side, of: Side) -> bool
    ensures { result ≡ is_side side of }
{
    match (side, of) {
        (Side::E, Side::E) | (Side::R, Side::R) => true,
        _ => false,
    }
}

// The octets of a line that are the next piece of what a side of a link sent; none where the line is another's.
fn piece_of<'t>(line: &'t TapLine, link: u8, side: Side) -> &'t [u8]
    ensures { result.now ≡ piece_of link side line.now.step }
{
    match &line.step {
        TapStep::Link { .. } => &[],
        TapStep::Octets {
            link: number,
            side: of,
            text,
        } => {
            if *number == link && is_side(side, *of) {
                text.as_slice()
            } else {
                &[]
            }
        }
    }
}

/// Lines, and the mark of each. Contracts see the lines.
#[derive(Drop)]
pub struct Marks<'t> {
    lines: &'t [TapLine],
    marks: Vec<u8>,
}

impl<'t> Model for Marks<'t> {
    ghost use Rattle.std.specs.Prelude.{◌≡◌, List};
    ghost use Rattle.er_tap.specs.declared.tap_line.TapLine.{TapLine};
    ghost use Rattle.link_audit.specs.Marks.{marks_in};

    ghost Value = { List TapLine };

    ghost view = { λ m. m.lines.now };

    ghost invariant = { λ m. m.marks.items ≡ marks_in m.lines.now };
}

impl<'t> Marks<'t> {
    /// Lines, marked.
    pub fn of(alloc: Global, lines: &'t [TapLine]) -> Result<Marks<'t>, NoMemory>
        ensures { IfOk result (λ marks. marks ≡ lines.now) }
    {
        let marks = marks_of(alloc, lines)?;
        Ok(Marks { lines, marks })
    }

    /// All of the lines, to be gone through.
    pub fn all(&self) -> MarkedLines<'_>
        ensures { result ≡ self.now }
    {
        MarkedLines {
            lines: self.lines,
            marks: self.marks.as_slice(),
        }
    }
}

/// Lines with their marks. Contracts see the lines.
#[derive(Drop)]
pub struct MarkedLines<'t> {
    lines: &'t [TapLine],
    marks: &'t [u8],
}

impl<'t> Model for MarkedLines<'t> {
    ghost use Rattle.std.specs.Prelude.{◌≡◌, List};
    ghost use Rattle.er_tap.specs.declared.tap_line.TapLine.{TapLine};
    ghost use Rattle.link_audit.specs.Marks.{marks_in};

    ghost Value = { List TapLine };

    ghost view = { λ m. m.lines.now };

    ghost invariant = { λ m. m.marks.now ≡ marks_in m.lines.now };
}

impl<'t> MarkedLines<'t> {
    /// The same lines, to be gone through.
    pub fn all(&self) -> MarkedLines<'t>
        ensures { result ≡ self.now }
    {
        MarkedLines {
            lines: self.lines,
            marks: self.marks,
        }
    }

    // How many lines stand before the first that has the mark of a side of a link, of which they bring nothing; None where no line has it.
    fn before_mark(&self, link: u8, side: Side) -> Option<usize>
        ensures stream { MatchOption result (stream_of link side self.now ≡ []) (λ count. stream_of link side self.now ≡ stream_of link side (drop count self.now)) }
        ensures within { IfSome result (λ count. count < length self.now) }
    {
        memchr(mark_of(link, side), self.marks)
    }

    /// Takes the lines up to and with the next piece of what a side of a link sent, and lends that piece; None where no such line is left.
    pub fn next_piece(&mut self, link: u8, side: Side) -> Option<&'t [u8]>
        ensures piece { MatchOption result (stream_of link side self.old ≡ []) (λ p. stream_of link side self.old ≡ p.now ++ stream_of link side self.new) }
        ensures fewer { IfSome result (λ _. length self.new < length self.old) }
        ensures rests { IsNone result → self.new ≡ self.old }
    {
        let Some(count) = self.before_mark(link, side) else {
            return None;
        };
        let line = &self.lines[count];
        self.lines = &self.lines[count + 1..];
        self.marks = &self.marks[count + 1..];
        Some(piece_of(line, link, side))
    }
}
