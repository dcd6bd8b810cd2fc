//! Events given to the end of a connection, and the lines of what came of them.

ghost use Rattle.std.specs.Prelude.{ℕ, ◌≡◌, ◌≤◌, ◌++◌, length, drop, false, Some, IfOk, OnOk, MatchOption};
ghost use Rattle.er_settings.specs.Values.{Settings as TraceSettings};
ghost use Rattle.safety_automaton.specs.Keys.{key_at};
ghost use Rattle.er_end_model.specs.Ends as of;
ghost use Rattle.er_end.specs.KeptEnds.{kept_end_behind_event, tells};
ghost use Rattle.er_end.specs.Given.{model_event_of, used_by};
ghost use Rattle.trace_model.specs.Checks.{role_of, is_opening_role};
ghost use Rattle.trace_model.specs.Printed.{outcomes_text};
ghost use Rattle.trace_replay.specs.Places.{StandsForAlikeEnd};
ghost use Rattle.trace_replay.specs.Takings.{IsOfEnd, IsOfNoEnd, GivesEventToEnd, GivesOctetsToEnd, told_over};

use er_base::{Moment, NoMemory, Release};
use er_end::{End, Event as EndEvent, SendRefused};
use er_trace::{Entry, Event};
use safety_automaton::KeyFinder;
use trace_lines::{tell_effects, tell_empty, tell_refused};

// What is left of octets of which so many were used.
fn behind(octets: &[u8], used: usize) -> &[u8]
    requires { used ≤ length octets.now }
    ensures { result.now ≡ drop used octets.now }
{
    octets.split_at(used).1
}

// Gives an end an event, and appends the lines of what came of it: how many octets of it were used.
fn give_event<K: KeyFinder>(
    end: &mut End,
    keys: &K,
    now: Moment,
    conn: u64,
    event: &EndEvent<'_>,
    out: &mut Vec<u8>,
) -> Result<usize, NoMemory>
    ensures end { OnOk result (end.new ≡ kept_end_behind_event now (model_event_of (key_at (K.entries keys.now)) event.now) end.old) }
    ensures text { OnOk result (out.new.items ≡ out.old.items ++ outcomes_text conn (tells now (model_event_of (key_at (K.entries keys.now)) event.now) end.old)) }
    ensures used { IfOk result (λ used. used ≡ used_by end.old event.now) }
{
    let effects = end.apply(keys, now, event);
    tell_effects(conn, &effects, out)?;
    Ok(effects.used)
}

// Octets that came in one event, frame by frame.
fn give_octets<K: KeyFinder>(
    end: &mut End,
    keys: &K,
    now: Moment,
    conn: u64,
    octets: &[u8],
    out: &mut Vec<u8>,
) -> Result<(), NoMemory>
    ensures { (last : ℕ) (m : of.End) → StandsForAlikeEnd last end.old m → last ≤ now
        → OnOk result (GivesOctetsToEnd now conn (key_at (K.entries keys.now)) octets.now m end.new out.old.items out.new.items) }
{
    er_end::laws::standing();
    er_end::laws::used_octets();
    hdlc_frames::laws::kept_stands_for_stream();
    let mut used = 0;
    while used < octets.len() {
        let piece = EndEvent::Octets(behind(octets, used));
        used += give_event(end, keys, now, conn, &piece, out)?;
    }
    Ok(())
}

// An event of a trace, which isn't an opening, as one of its end. None where it is none of an end.
fn at_end(event: &Event) -> Option<EndEvent<'_>>
    requires { is_opening_role (role_of event.now) ≡ false }
    ensures { MatchOption result (IsOfNoEnd event.now) (λ on. IsOfEnd event.now on) }
{
    match event {
        Event::Octets(octets) => Some(EndEvent::Octets(octets.as_slice())),
        Event::Send(text) => Some(EndEvent::Send(text.as_slice())),
        Event::Take => Some(EndEvent::Take),
        Event::Release(sub) => Some(EndEvent::Release(*sub)),
        Event::Tick => Some(EndEvent::Tick),
        Event::Ended => Some(EndEvent::Ended),
        Event::Fault => Some(EndEvent::Fault),
        Event::Stalled => Some(EndEvent::Stalled),
        Event::Call { .. } | Event::Answer { .. } | Event::Full(_) | Event::Unserved(_) => None,
    }
}

/// Starts an end that calls.
pub fn give_start<K: KeyFinder>(
    end: &mut End,
    keys: &K,
    now: Moment,
    conn: u64,
    out: &mut Vec<u8>,
) -> Result<(), NoMemory>
    ensures end { OnOk result (end.new ≡ kept_end_behind_event now of.Start end.old) }
    ensures text { OnOk result (out.new.items ≡ out.old.items ++ outcomes_text conn (tells now of.Start end.old)) }
{
    give_event(end, keys, now, conn, &EndEvent::Start, out)?;
    Ok(())
}

/// Gives an end an event of its connection that isn't its opening, and appends the lines of what came of it.
pub fn give<K: KeyFinder>(
    end: &mut End,
    keys: &K,
    entry: &Entry,
    out: &mut Vec<u8>,
) -> Result<(), NoMemory>
    requires { is_opening_role (role_of entry.now.event) ≡ false }
    ensures { (settings : TraceSettings) (last : ℕ) (m : of.End) → StandsForAlikeEnd last end.old m → last ≤ entry.now.moment
        → OnOk result (GivesEventToEnd settings (key_at (K.entries keys.now)) entry.now (Some m) end.new out.old.items out.new.items) }
{
    er_end::laws::standing();
    let (now, conn) = (entry.moment, entry.conn);
    let Some(event) = at_end(&entry.event) else {
        return Ok(());
    };
    if let EndEvent::Octets(octets) = event {
        return give_octets(end, keys, now, conn, octets, out);
    }
    give_event(end, keys, now, conn, &event, out)?;
    Ok(())
}

/// Appends the lines of what comes of an event, which isn't its opening, at an end that is over: one that was released for this
/// reason, and at which no message waits.
pub fn tell_over(entry: &Entry, why: Release, out: &mut Vec<u8>) -> Result<(), NoMemory>
    ensures { OnOk result (out.new.items ≡ out.old.items ++ outcomes_text entry.now.conn (told_over why entry.now.event)) }
{
    match &entry.event {
        Event::Send(_) => tell_refused(entry.conn, &SendRefused::Released(why), out),
        Event::Take => tell_empty(entry.conn, out),
        _ => Ok(()),
    }
}
