//! Prints the lines of a trace.

ghost use Rattle.std.specs.Prelude.{◌≡◌, ◌++◌, ◌∷◌, [], codes, OnOk, OnErr};
ghost use Rattle.std.specs.Fmt.{decimal};
ghost use Rattle.er_base.specs.Hexadecimal.{hex_of};
ghost use Rattle.er_base.specs.LineTexts.{line_text};
ghost use Rattle.er_trace.specs.declared.event.Event.TheVariants as event;
ghost use Rattle.er_trace.specs.Outcomes.{outcome_of_lent};
ghost use Rattle.er_trace.specs.Outcomes as outcomes;
ghost use Rattle.er_trace.specs.Table.{event_word, outcome_word, refusal_word, releaser_word};
ghost use Rattle.er_trace.specs.Texts.{header_words, event_words, entry_words, outcome_words};

use crate::entry::Entry;
use crate::event::Event;
use crate::event_name::EventName;
use crate::outcome::Outcome;
use crate::outcome_name::OutcomeName;
use crate::refusal_name::RefusalName;
use er_base::PrintedWord::{Decimal, Hexadecimal, Plain};
use er_base::{EtcsNumber, Moment, NoMemory, Release, eight_of, put_line};
use er_settings::Settings;

/// Appends the header of a trace of ends of these settings. After want of memory `out` is as it was.
pub fn print_header(settings: &Settings, out: &mut Vec<u8>) -> Result<(), NoMemory>
    ensures ok { OnOk result (out.new.items ≡ out.old.items ++ line_text (header_words settings.now)) }
    ensures err { OnErr result (out.new.items ≡ out.old.items) }
{
    let words = [
        Plain(b"1"),
        Decimal(settings.window as u64),
        Decimal(settings.credit as u64),
        Decimal(settings.size as u64),
        Decimal(settings.t1),
        Decimal(settings.n2 as u64),
        Decimal(settings.setup),
    ];
    put_line(&Plain(b"trace"), &words, out)
}

// Appends the line of an event that has no argument.
fn put_event(moment: Moment, conn: u64, name: EventName, out: &mut Vec<u8>) -> Result<(), NoMemory>
    ensures ok { OnOk result (out.new.items ≡ out.old.items ++ line_text (event_words moment conn (event_word name ∷ []))) }
    ensures err { OnErr result (out.new.items ≡ out.old.items) }
{
    let words = [Decimal(moment.get()), Decimal(conn), Plain(name.word())];
    put_line(&Plain(b">"), &words, out)
}

// Appends the line of an event that has a number.
fn put_number(
    moment: Moment,
    conn: u64,
    name: EventName,
    number: u64,
    out: &mut Vec<u8>,
) -> Result<(), NoMemory>
    ensures ok { OnOk result (out.new.items
        ≡ out.old.items ++ line_text (event_words moment conn (event_word name ∷ decimal number ∷ []))) }
    ensures err { OnErr result (out.new.items ≡ out.old.items) }
{
    let words = [
        Decimal(moment.get()),
        Decimal(conn),
        Plain(name.word()),
        Decimal(number),
    ];
    put_line(&Plain(b">"), &words, out)
}

// Appends the line of an event that has octets.
fn put_octets(
    moment: Moment,
    conn: u64,
    name: EventName,
    octets: &[u8],
    out: &mut Vec<u8>,
) -> Result<(), NoMemory>
    ensures ok { OnOk result (out.new.items
        ≡ out.old.items ++ line_text (event_words moment conn (event_word name ∷ hex_of octets.now ∷ []))) }
    ensures err { OnErr result (out.new.items ≡ out.old.items) }
{
    let words = [
        Decimal(moment.get()),
        Decimal(conn),
        Plain(name.word()),
        Hexadecimal(octets),
    ];
    put_line(&Plain(b">"), &words, out)
}

// Appends the line of a call.
fn put_call(
    moment: Moment,
    conn: u64,
    engine: EtcsNumber,
    rbc: EtcsNumber,
    rb: u64,
    out: &mut Vec<u8>,
) -> Result<(), NoMemory>
    ensures ok { OnOk result (out.new.items ≡ out.old.items ++ line_text (entry_words moment conn (event.Call engine rbc rb))) }
    ensures err { OnErr result (out.new.items ≡ out.old.items) }
{
    let words = [
        Decimal(moment.get()),
        Decimal(conn),
        Plain(EventName::Call.word()),
        Decimal(engine.get() as u64),
        Decimal(rbc.get() as u64),
        Hexadecimal(&eight_of(rb)),
    ];
    put_line(&Plain(b">"), &words, out)
}

// Appends the line of an answer.
fn put_answer(
    moment: Moment,
    conn: u64,
    rbc: EtcsNumber,
    ra: u64,
    out: &mut Vec<u8>,
) -> Result<(), NoMemory>
    ensures ok { OnOk result (out.new.items ≡ out.old.items ++ line_text (entry_words moment conn (event.Answer rbc ra))) }
    ensures err { OnErr result (out.new.items ≡ out.old.items) }
{
    let words = [
        Decimal(moment.get()),
        Decimal(conn),
        Plain(EventName::Answer.word()),
        Decimal(rbc.get() as u64),
        Hexadecimal(&eight_of(ra)),
    ];
    put_line(&Plain(b">"), &words, out)
}

/// Appends the line of an event: `> MOMENT CONN` and the words of the event. After want of memory `out` is as it was.
pub fn print_entry(entry: &Entry, out: &mut Vec<u8>) -> Result<(), NoMemory>
    ensures ok { OnOk result (out.new.items
        ≡ out.old.items ++ line_text (entry_words entry.now.moment entry.now.conn entry.now.event)) }
    ensures err { OnErr result (out.new.items ≡ out.old.items) }
{
    let moment = entry.moment;
    let conn = entry.conn;
    match &entry.event {
        Event::Call { engine, rbc, rb } => put_call(moment, conn, *engine, *rbc, *rb, out),
        Event::Answer { rbc, ra } => put_answer(moment, conn, *rbc, *ra, out),
        Event::Octets(octets) => {
            put_octets(moment, conn, EventName::Octets, octets.as_slice(), out)
        }
        Event::Send(text) => put_octets(moment, conn, EventName::Send, text.as_slice(), out),
        Event::Take => put_event(moment, conn, EventName::Take, out),
        Event::Release(sub) => put_number(moment, conn, EventName::Release, *sub as u64, out),
        Event::Tick => put_event(moment, conn, EventName::Tick, out),
        Event::Ended => put_event(moment, conn, EventName::Ended, out),
        Event::Fault => put_event(moment, conn, EventName::Fault, out),
        Event::Stalled => put_event(moment, conn, EventName::Stalled, out),
        Event::Full(count) => put_number(moment, conn, EventName::Full, *count, out),
        Event::Unserved(count) => put_number(moment, conn, EventName::Unserved, *count, out),
    }
}

/// Appends the line of octets that came, as [`print_entry`] does, without an event that owns them.
pub fn print_octets(
    moment: Moment,
    conn: u64,
    octets: &[u8],
    out: &mut Vec<u8>,
) -> Result<(), NoMemory>
    ensures ok { OnOk result (out.new.items ≡ out.old.items ++ line_text (entry_words moment conn (event.Octets octets.now))) }
    ensures err { OnErr result (out.new.items ≡ out.old.items) }
{
    put_octets(moment, conn, EventName::Octets, octets, out)
}

/// Appends the line of a message that the user sends, as [`print_entry`] does, without an event that owns it.
pub fn print_send(moment: Moment, conn: u64, text: &[u8], out: &mut Vec<u8>) -> Result<(), NoMemory>
    ensures ok { OnOk result (out.new.items ≡ out.old.items ++ line_text (entry_words moment conn (event.Send text.now))) }
    ensures err { OnErr result (out.new.items ≡ out.old.items) }
{
    put_octets(moment, conn, EventName::Send, text, out)
}

// Appends the line of an outcome that has octets.
fn put_text(conn: u64, name: OutcomeName, text: &[u8], out: &mut Vec<u8>) -> Result<(), NoMemory>
    ensures ok { OnOk result (out.new.items
        ≡ out.old.items ++ line_text (codes "<" ∷ decimal conn ∷ outcome_word name ∷ hex_of text.now ∷ [])) }
    ensures err { OnErr result (out.new.items ≡ out.old.items) }
{
    let words = [Decimal(conn), Plain(name.word()), Hexadecimal(text)];
    put_line(&Plain(b"<"), &words, out)
}

// Appends the line of a connection that is made.
fn put_connected(conn: u64, peer: u32, out: &mut Vec<u8>) -> Result<(), NoMemory>
    ensures ok { OnOk result (out.new.items ≡ out.old.items ++ line_text (outcome_words conn (outcomes.Connected peer))) }
    ensures err { OnErr result (out.new.items ≡ out.old.items) }
{
    let words = [
        Decimal(conn),
        Plain(OutcomeName::Connected.word()),
        Decimal(peer as u64),
    ];
    put_line(&Plain(b"<"), &words, out)
}

// Appends the line of a take of nothing.
fn put_empty(conn: u64, out: &mut Vec<u8>) -> Result<(), NoMemory>
    ensures ok { OnOk result (out.new.items ≡ out.old.items ++ line_text (outcome_words conn outcomes.Empty)) }
    ensures err { OnErr result (out.new.items ≡ out.old.items) }
{
    let words = [Decimal(conn), Plain(OutcomeName::Empty.word())];
    put_line(&Plain(b"<"), &words, out)
}

// Appends the line of a send that was refused since the end is released.
fn put_refused_released(conn: u64, release: &Release, out: &mut Vec<u8>) -> Result<(), NoMemory>
    ensures ok { OnOk result (out.new.items
        ≡ out.old.items ++ line_text (outcome_words conn (outcomes.RefusedReleased release.now))) }
    ensures err { OnErr result (out.new.items ≡ out.old.items) }
{
    let words = [
        Decimal(conn),
        Plain(b"refused"),
        Plain(RefusalName::Released.word()),
        Decimal(release.reason as u64),
        Decimal(release.sub as u64),
    ];
    put_line(&Plain(b"<"), &words, out)
}

// Appends the line of a send that was refused since the end isn't connected.
fn put_refused_unconnected(conn: u64, out: &mut Vec<u8>) -> Result<(), NoMemory>
    ensures ok { OnOk result (out.new.items ≡ out.old.items ++ line_text (outcome_words conn outcomes.RefusedNotConnected)) }
    ensures err { OnErr result (out.new.items ≡ out.old.items) }
{
    let words = [
        Decimal(conn),
        Plain(b"refused"),
        Plain(RefusalName::NotConnected.word()),
    ];
    put_line(&Plain(b"<"), &words, out)
}

// Appends the line of a send that was refused for a number.
fn put_refused_number(
    conn: u64,
    name: RefusalName,
    number: usize,
    out: &mut Vec<u8>,
) -> Result<(), NoMemory>
    ensures ok { OnOk result (out.new.items
        ≡ out.old.items ++ line_text (codes "<" ∷ decimal conn ∷ codes "refused" ∷ refusal_word name ∷ decimal number ∷ [])) }
    ensures err { OnErr result (out.new.items ≡ out.old.items) }
{
    let words = [
        Decimal(conn),
        Plain(b"refused"),
        Plain(name.word()),
        Decimal(number as u64),
    ];
    put_line(&Plain(b"<"), &words, out)
}

// The word for who released.
fn releaser(by_peer: bool) -> &'static [u8]
    ensures { result.now ≡ releaser_word by_peer }
{
    if by_peer { b"peer" } else { b"local" }
}

// Appends the line of a release.
fn put_released(conn: u64, release: &Release, out: &mut Vec<u8>) -> Result<(), NoMemory>
    ensures ok { OnOk result (out.new.items
        ≡ out.old.items ++ line_text (outcome_words conn (outcomes.Released release.now))) }
    ensures err { OnErr result (out.new.items ≡ out.old.items) }
{
    let words = [
        Decimal(conn),
        Plain(OutcomeName::Released.word()),
        Decimal(release.reason as u64),
        Decimal(release.sub as u64),
        Plain(releaser(release.by_peer)),
    ];
    put_line(&Plain(b"<"), &words, out)
}

/// Appends the line of an outcome: `< CONN` and the words of the outcome; that of an empty take is `none`. After want of memory
/// `out` is as it was.
pub fn print_outcome(conn: u64, outcome: &Outcome<'_>, out: &mut Vec<u8>) -> Result<(), NoMemory>
    ensures ok { OnOk result (out.new.items ≡ out.old.items ++ line_text (outcome_words conn (outcome_of_lent outcome.now))) }
    ensures err { OnErr result (out.new.items ≡ out.old.items) }
{
    match outcome {
        Outcome::Connected(peer) => put_connected(conn, *peer, out),
        Outcome::Accepted(text) => put_text(conn, OutcomeName::Accepted, text, out),
        Outcome::Taken(text) => put_text(conn, OutcomeName::Taken, text, out),
        Outcome::Empty => put_empty(conn, out),
        Outcome::RefusedReleased(release) => put_refused_released(conn, release, out),
        Outcome::RefusedNotConnected => put_refused_unconnected(conn, out),
        Outcome::RefusedLength(length) => {
            put_refused_number(conn, RefusalName::Length, *length, out)
        }
        Outcome::RefusedFull(waiting) => put_refused_number(conn, RefusalName::Full, *waiting, out),
        Outcome::Released(release) => put_released(conn, release, out),
        Outcome::Octets(octets) => put_text(conn, OutcomeName::Octets, octets, out),
    }
}
