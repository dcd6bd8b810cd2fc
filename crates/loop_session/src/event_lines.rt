//! Lines of events, written to the journal with what they count.

ghost use Rattle.std.specs.Prelude.{◌≡◌, ◌≤◌, [], ◌∷◌, ◌++◌, OnOk};
ghost use Rattle.er_base.specs.LineTexts.{line_text};
ghost use Rattle.er_trace.specs.Texts.{entry_words};
ghost use Rattle.outside.specs.Scripts.{printing};
ghost use Rattle.journal.specs.Tallies.{IsTallyOf};
ghost use Rattle.loop_session.specs.Parts.{writes_of_entries, OnlyPrints, Puts};

use crate::loop_fault::LoopFault;
use crate::ranges::see_moment;
use crate::scratch::Scratch;
use er_base::{Moment, NoMemory};
use er_trace::{Entry, Event, print_entry};
use journal::{EventTally, Journal};
use outside::Outside;

/// Writes lines that are of no event, where there are any.
#[tactic(auto, using(crate::proofs::Written::all_put, crate::proofs::Written::put_broke))]
pub fn write_lines<O: Outside>(lines: &[u8], outside: &mut O) -> Result<(), LoopFault>
    ensures puts { Puts (O.told outside.old) (O.told outside.new) (printing lines.now) result }
    ensures only { OnlyPrints (O.told outside.old) (O.told outside.new) }
{
    if lines.is_empty() {
        return Ok(());
    }
    match outside.write(lines) {
        Ok(()) => Ok(()),
        Err(_failed) => Err(LoopFault::Sink),
    }
}

/// Writes the lines of an event, which counts this.
#[tactic(auto, using(crate::proofs::Written::some_lines, crate::proofs::Written::all_put, crate::proofs::Written::put_broke))]
pub fn record_lines<O: Journal>(
    lines: &[u8],
    tally: &EventTally,
    outside: &mut O,
) -> Result<(), LoopFault>
    requires { IsTallyOf lines.now tally.now }
    ensures puts { Puts (O.told outside.old) (O.told outside.new) (printing lines.now) result }
    ensures only { OnlyPrints (O.told outside.old) (O.told outside.new) }
{
    if lines.is_empty() {
        return Ok(());
    }
    match outside.record(lines, tally) {
        Ok(()) => Ok(()),
        Err(_failed) => Err(LoopFault::Sink),
    }
}

// Appends the line of an event.
pub(crate) fn put(
    moment: Moment,
    conn: u64,
    event: Event,
    line: &mut Vec<u8>,
) -> Result<(), NoMemory>
    ensures text { OnOk result (line.new.items ≡ line.old.items ++ line_text (entry_words moment conn event)) }
    ensures within { moment ≤ 1000000000000000 }
{
    see_moment(moment);
    let entry = Entry {
        line: 0,
        moment,
        conn,
        event,
    };
    print_entry(&entry, line)
}

/// Writes the line of an event that has no outcome; its moment is in its range by its type.
pub fn write_event<O: Journal>(
    moment: Moment,
    conn: u64,
    event: Event,
    scratch: &mut Scratch,
    outside: &mut O,
) -> Result<(), LoopFault>
    ensures puts { Puts (O.told outside.old) (O.told outside.new)
        (writes_of_entries (record { moment = moment; conn = conn; event = event; outcomes = [] } ∷ [])) result }
    ensures within { moment ≤ 1000000000000000 }
    ensures only { OnlyPrints (O.told outside.old) (O.told outside.new) }
{
    let tally = EventTally::of_event(conn, &event);
    scratch.line.clear();
    put(moment, conn, event, &mut scratch.line)?;
    record_lines(scratch.line.as_slice(), &tally, outside)
}
