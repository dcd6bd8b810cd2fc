//! The lines that are events: each reads the words behind that of the event.

ghost use Rattle.std.specs.Prelude.{◌≡◌, ◌∷◌, [], length, map, IfOk};
ghost use Rattle.er_base.specs.Rows.{AnswersAsWordsSay};
ghost use Rattle.er_trace.specs.Ranges.{IsInRange};
ghost use Rattle.er_trace.specs.Readings.{event_said};
ghost use Rattle.er_trace.specs.Table.{event_kinds};

use crate::arguments::{read_any_number, read_etcs_number, read_octet, read_octets};
use crate::event::Event;
use crate::event_name::EventName;
use er_base::{LineFault, Octets, Why, read_number16};
use std::alloc::Global;

fn call(alloc: Global, engine: &[u8], rbc: &[u8], rb: &[u8]) -> Result<Event, LineFault>
    ensures event { AnswersAsWordsSay result (event_said EventName.Call (engine.now ∷ rbc.now ∷ rb.now ∷ [])) }
    ensures range { IfOk result (λ event. IsInRange event) }
{
    Ok(Event::Call {
        engine: read_etcs_number(engine)?,
        rbc: read_etcs_number(rbc)?,
        rb: read_number16(alloc, rb)?,
    })
}

fn answer(alloc: Global, rbc: &[u8], ra: &[u8]) -> Result<Event, LineFault>
    ensures event { AnswersAsWordsSay result (event_said EventName.Answer (rbc.now ∷ ra.now ∷ [])) }
    ensures range { IfOk result (λ event. IsInRange event) }
{
    Ok(Event::Answer {
        rbc: read_etcs_number(rbc)?,
        ra: read_number16(alloc, ra)?,
    })
}

fn octets(alloc: Global, octets: &[u8]) -> Result<Event, LineFault>
    ensures event { AnswersAsWordsSay result (event_said EventName.Octets (octets.now ∷ [])) }
    ensures range { IfOk result (λ event. IsInRange event) }
{
    Ok(Event::Octets(read_octets(alloc, octets)?))
}

fn send(alloc: Global, text: &[u8]) -> Result<Event, LineFault>
    ensures event { AnswersAsWordsSay result (event_said EventName.Send (text.now ∷ [])) }
    ensures range { IfOk result (λ event. IsInRange event) }
{
    Ok(Event::Send(read_octets(alloc, text)?))
}

fn release(sub: &[u8]) -> Result<Event, LineFault>
    ensures event { AnswersAsWordsSay result (event_said EventName.Release (sub.now ∷ [])) }
    ensures range { IfOk result (λ event. IsInRange event) }
{
    Ok(Event::Release(read_octet(sub)?))
}

fn full(count: &[u8]) -> Result<Event, LineFault>
    ensures event { AnswersAsWordsSay result (event_said EventName.Full (count.now ∷ [])) }
    ensures range { IfOk result (λ event. IsInRange event) }
{
    Ok(Event::Full(read_any_number(count)?))
}

fn unserved(count: &[u8]) -> Result<Event, LineFault>
    ensures event { AnswersAsWordsSay result (event_said EventName.Unserved (count.now ∷ [])) }
    ensures range { IfOk result (λ event. IsInRange event) }
{
    Ok(Event::Unserved(read_any_number(count)?))
}

/// The event of a line that names it, from the words behind it, as many as it wants.
pub fn read_event(alloc: Global, name: EventName, words: &[&[u8]]) -> Result<Event, LineFault>
    requires { length words.now ≡ length (event_kinds name) }
    ensures event { AnswersAsWordsSay result (event_said name (map (λ w. w.now) words.now)) }
    ensures range { IfOk result (λ event. IsInRange event) }
{
    match (name, words) {
        (EventName::Call, [engine, rbc, rb]) => call(alloc, engine, rbc, rb),
        (EventName::Answer, [rbc, ra]) => answer(alloc, rbc, ra),
        (EventName::Octets, [hexadecimal]) => octets(alloc, hexadecimal),
        (EventName::Send, [text]) => send(alloc, text),
        (EventName::Take, []) => Ok(Event::Take),
        (EventName::Release, [sub]) => release(sub),
        (EventName::Tick, []) => Ok(Event::Tick),
        (EventName::Ended, []) => Ok(Event::Ended),
        (EventName::Fault, []) => Ok(Event::Fault),
        (EventName::Stalled, []) => Ok(Event::Stalled),
        (EventName::Full, [count]) => full(count),
        (EventName::Unserved, [count]) => unserved(count),
        _ => Err(LineFault::Refused(Why::Count)),
    }
}
