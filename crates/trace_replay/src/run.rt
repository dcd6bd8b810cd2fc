//! The replay of events, one behind the other.

ghost use Rattle.std.specs.Prelude.{◌≡◌, ◌++◌, [], List, ℕ, OnOk};
ghost use Rattle.er_base.specs.LineTexts.{line_text};
ghost use Rattle.safety_automaton.specs.Keys.{key_at};
ghost use Rattle.er_settings.specs.Values.{Settings as TraceSettings};
ghost use Rattle.er_end_model.specs.Steps.{Finds};
ghost use Rattle.er_trace.specs.declared.entry.Entry.{Entry as TraceEntry};
ghost use Rattle.er_trace.specs.Texts.{header_words};
ghost use Rattle.trace_replay.specs.Standing.{StandsBehind};
ghost use Rattle.trace_replay.specs.Replays.{ReplaysNext, ReplaysAll};

use crate::connections::Connections;
use er_base::{Moment, NoMemory};
use er_settings::Settings;
use er_trace::{Entry, Trace, print_header};
use safety_automaton::KeyFinder;
use std::alloc::Global;
use trace_model::ReplayFault;

/// What a replay keeps of the events that it took: the ends of their connections, and the moment of the newest.
#[derive(Drop)]
pub struct Replaying {
    connections: Connections,
    last: Moment,
}

impl Replaying {
    /// No event was taken yet.
    pub fn new(alloc: Global) -> Replaying
        ensures { (settings : TraceSettings) (finds : Finds) → StandsBehind settings finds [] result }
    {
        Replaying {
            connections: Connections::new(alloc),
            last: Moment::new(0),
        }
    }

    /// Takes the next event, and appends its line and those of its outcomes.
    ///
    /// KMACs are looked up among the keys, each at the moment of its event.
    pub fn take<K: KeyFinder>(
        &mut self,
        settings: &Settings,
        keys: &K,
        entry: &Entry,
        out: &mut Vec<u8>,
    ) -> Result<(), ReplayFault>
        ensures { (before : List TraceEntry) → StandsBehind settings.now (key_at (K.entries keys.now)) before self.old
            → ReplaysNext settings.now (key_at (K.entries keys.now)) before entry.now self.new out.old.items out.new.items result }
    {
        if entry.moment.get() < self.last.get() {
            return Err(ReplayFault::MomentBack {
                line: entry.line,
                was: self.last.get(),
                now: entry.moment.get(),
            });
        }
        self.connections.take(settings, keys, entry, out)?;
        self.last = entry.moment;
        Ok(())
    }
}

// Appends a text.
fn put_text(text: &[u8], out: &mut Vec<u8>) -> Result<(), NoMemory>
    ensures { OnOk result (out.new.items ≡ out.old.items ++ text.now) }
{
    out.extend_from_slice(text)?;
    Ok(())
}

// Replays all events, behind the header.
fn replay_entries<K: KeyFinder>(
    keys: &K,
    trace: &Trace,
    replaying: &mut Replaying,
    text: &mut Vec<u8>,
    out: &mut Vec<u8>,
) -> Result<(), ReplayFault>
    requires { StandsBehind trace.now.settings (key_at (K.entries keys.now)) [] replaying.old }
    ensures { (start : List ℕ) → out.old.items ≡ start ++ line_text (header_words trace.now.settings)
        → ReplaysAll trace.now.settings (key_at (K.entries keys.now)) trace.now.entries start out.new.items result }
{
    for entry in trace.entries.as_slice() {
        text.clear();
        replaying.take(&trace.settings, keys, entry, text)?;
        put_text(text.as_slice(), out)?;
    }
    Ok(())
}

/// Appends the text of a trace: its header, then each event's line and those of its outcomes. Where an event isn't taken, the text of those before it
/// was appended.
///
/// KMACs are looked up among the keys, each at the moment of its event.
pub fn replay<K: KeyFinder>(
    alloc: Global,
    keys: &K,
    trace: &Trace,
    out: &mut Vec<u8>,
) -> Result<(), ReplayFault>
    ensures { ReplaysAll trace.now.settings (key_at (K.entries keys.now)) trace.now.entries out.old.items out.new.items result }
{
    print_header(&trace.settings, out)?;
    let mut replaying = Replaying::new(alloc);
    replay_entries(keys, trace, &mut replaying, &mut Vec::new(alloc), out)
}
