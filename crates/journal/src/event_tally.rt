//! What one event counts.

ghost use Rattle.std.specs.Prelude.{◌≡◌, ℕ, List, [], if◌then◌else◌};
ghost use Rattle.er_trace.specs.declared.event.Event.{Event as AnyEvent};
ghost use Rattle.er_end.specs.Given.{outcomes_in};
ghost use Rattle.loop_model.specs.Journals.{JournalEntry};
ghost use Rattle.journal.specs.Tallies.{what_event_begins, messages_said_by_event, IsTallyOfEntry, IsTallyOf};

use crate::began::Began;
use er_base::Release;
use er_end::Effects;
use er_trace::Event;

/// What one event of a journal counts: it, and the outcomes that its lines tell.
#[derive(Clone, Copy, Debug, PartialEq, Eq)]
pub struct EventTally {
    /// The number of the connection.
    pub conn: u64,
    /// What the event began, or why it began nothing.
    pub began: Began,
    /// How many messages the user said: 0 or 1.
    pub said: u64,
    /// How many of these were refused: 0 or 1.
    pub refused: u64,
    /// How many messages of the peer were accepted: 0 or 1.
    pub accepted: u64,
    /// How often the end came to stand connected: 0 or 1.
    pub connected: u64,
    /// The release that came.
    pub released: Option<Release>,
    /// How many frames the station ignored in this event, of any kind. No clause says how many: the end's own counts do.
    pub ignored: u64,
}

// 1 for what is so.
fn one_if(is: bool) -> u64
    ensures { result ≡ (if is then 1 else 0) }
{
    if is { 1 } else { 0 }
}

// What an event begins.
fn begun_by(event: &Event) -> Began
    ensures { result ≡ what_event_begins event.now }
{
    match event {
        Event::Call { .. } | Event::Answer { .. } => Began::End,
        Event::Full(_) => Began::Full,
        Event::Unserved(_) => Began::Unserved,
        _ => Began::Nothing,
    }
}

// How many messages a user says by it.
fn said_by(event: &Event) -> u64
    ensures { result ≡ messages_said_by_event event.now }
{
    match event {
        Event::Send(_) => 1,
        _ => 0,
    }
}

impl EventTally {
    /// What an event counts of which nothing came.
    pub fn of_event(conn: u64, event: &Event) -> EventTally
        ensures { (moment : ℕ) → IsTallyOfEntry (record { moment = moment; conn = conn; event = event.now; outcomes = [] }) result }
    {
        EventTally {
            conn,
            began: begun_by(event),
            said: said_by(event),
            refused: 0,
            accepted: 0,
            connected: 0,
            released: None,
            ignored: 0,
        }
    }

    /// What an event of an end counts of which this came: it begins that, and by it the user says so many messages.
    pub fn of_effects(conn: u64, began: Began, said: u64, effects: &Effects<'_>) -> EventTally
        ensures { (moment : ℕ) (event : AnyEvent) → what_event_begins event ≡ began → messages_said_by_event event ≡ said
            → IsTallyOfEntry (record { moment = moment; conn = conn; event = event; outcomes = outcomes_in effects.now }) result }
    {
        EventTally {
            conn,
            began,
            said,
            refused: one_if(effects.refused.is_some()),
            accepted: one_if(effects.deeds.accepted.is_some()),
            connected: one_if(effects.deeds.connected.is_some()),
            released: effects.deeds.released,
            ignored: 0,
        }
    }

    /// The same, with so many frames that the station ignored.
    pub fn ignoring(self, ignored: u64) -> EventTally
        ensures entry { (x : JournalEntry) → IsTallyOfEntry x self → IsTallyOfEntry x result }
        ensures lines { (lines : List ℕ) → IsTallyOf lines self → IsTallyOf lines result }
        ensures ignored { result.ignored ≡ ignored }
    {
        EventTally { ignored, ..self }
    }
}
