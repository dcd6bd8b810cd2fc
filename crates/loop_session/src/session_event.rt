//! Events of a session.

ghost use Rattle.std.specs.Prelude.{◌≡◌, ◌++◌, ℕ, OnOk};
ghost use Rattle.er_base.specs.LineTexts.{line_text};
ghost use Rattle.er_trace.specs.Texts.{entry_words, IsReadableEntry};
ghost use Rattle.safety_automaton.specs.Keys.{key_at};
ghost use Rattle.er_end.specs.Given.{model_event_of, used_by, outcomes_in};
ghost use Rattle.er_end.specs.KeptEnds.{KEnd};
ghost use Rattle.loop_model.specs.Sessions.{Rules, event_of, breaks, journal_event_of_given};
ghost use Rattle.journal.specs.Tallies.{what_event_begins, messages_said_by_event, IsTallyOfEntry};
ghost use Rattle.loop_session.specs.Giving.{event_given_to_session, HasFewOctets, used_in, journal_entry_of_event};
ghost use Rattle.loop_session.specs.Keeping.{kept_ends};

use crate::event_lines::put;
use crate::ranges::{front, see_moment, see_number, see_octet, see_octets, see_word};
use er_base::{EtcsNumber, Moment, NoMemory};
use er_end::{Effects, Event};
use er_trace::{Event as LineEvent, print_octets, print_send};
use journal::{Began, EventTally};

/// What an engine calls with.
#[derive(Clone, Copy)]
pub struct Called {
    /// The engine's ETCS number.
    pub engine: EtcsNumber,
    /// That of the radio block centre.
    pub rbc: EtcsNumber,
    /// The engine's random number.
    pub rb: u64,
}

/// What is given to the end of a session.
#[derive(Clone, Copy)]
pub enum SessionEvent<'a> {
    /// The end of an engine begins: its station sends the set-up frame.
    Call(&'a Called),
    /// Octets come, and the end uses them up to the first closed frame.
    Octets(&'a [u8]),
    /// The user sends a message.
    Send(&'a [u8]),
    /// The user takes the oldest message that waits.
    Take,
    /// The user releases, with this sub-reason.
    Release(u8),
    /// A moment has come.
    Tick,
    /// The line ended.
    Ended,
    /// The line failed.
    Fault,
    /// The line stalled.
    Stalled,
}

impl<'a> SessionEvent<'a> {
    /// As the end takes it.
    pub fn at_end(&self) -> Event<'a>
        ensures event { (r : Rules) → model_event_of (key_at r.keys) result ≡ event_of r (event_given_to_session self.now) }
        ensures used { (k : KEnd) → used_by k result ≡ used_in k (event_given_to_session self.now) }
    {
        match *self {
            SessionEvent::Call(_) => Event::Start,
            SessionEvent::Octets(octets) => Event::Octets(octets),
            SessionEvent::Send(text) => Event::Send(text),
            SessionEvent::Take => Event::Take,
            SessionEvent::Release(sub) => Event::Release(sub),
            SessionEvent::Tick => Event::Tick,
            SessionEvent::Ended => Event::Ended,
            SessionEvent::Fault => Event::Fault,
            SessionEvent::Stalled => Event::Stalled,
        }
    }

    /// Whether the connection is to be closed behind it.
    pub fn breaks(&self) -> bool
        ensures { result ≡ breaks (event_given_to_session self.now) }
    {
        matches!(
            self,
            SessionEvent::Ended | SessionEvent::Fault | SessionEvent::Stalled
        )
    }

    // What it begins.
    fn begins(&self) -> Began
        ensures { (k : KEnd) → what_event_begins (journal_event_of_given kept_ends k (event_given_to_session self.now)) ≡ result }
    {
        match *self {
            SessionEvent::Call(_) => Began::End,
            SessionEvent::Octets(_) => Began::Nothing,
            SessionEvent::Send(_) => Began::Nothing,
            SessionEvent::Take => Began::Nothing,
            SessionEvent::Release(_) => Began::Nothing,
            SessionEvent::Tick => Began::Nothing,
            SessionEvent::Ended => Began::Nothing,
            SessionEvent::Fault => Began::Nothing,
            SessionEvent::Stalled => Began::Nothing,
        }
    }

    // How many messages the user says by it.
    fn says(&self) -> u64
        ensures { (k : KEnd) → messages_said_by_event (journal_event_of_given kept_ends k (event_given_to_session self.now)) ≡ result }
    {
        match *self {
            SessionEvent::Call(_) => 0,
            SessionEvent::Octets(_) => 0,
            SessionEvent::Send(_) => 1,
            SessionEvent::Take => 0,
            SessionEvent::Release(_) => 0,
            SessionEvent::Tick => 0,
            SessionEvent::Ended => 0,
            SessionEvent::Fault => 0,
            SessionEvent::Stalled => 0,
        }
    }

    // What it counts with all that came of it.
    pub(crate) fn tally(&self, conn: u64, effects: &Effects<'_>) -> EventTally
        ensures { (k : KEnd) (moment : ℕ)
            → IsTallyOfEntry (journal_entry_of_event moment conn (journal_event_of_given kept_ends k (event_given_to_session self.now)) (outcomes_in effects.now)) result }
    {
        EventTally::of_effects(conn, self.begins(), self.says(), effects)
    }

    // Appends its line; of octets those that the end used.
    pub(crate) fn print(
        &self,
        used: usize,
        moment: Moment,
        conn: u64,
        line: &mut Vec<u8>,
    ) -> Result<(), NoMemory>
        requires { HasFewOctets (event_given_to_session self.now) }
        ensures text { (k : KEnd) → used ≡ used_in k (event_given_to_session self.now)
            → OnOk result (line.new.items ≡ line.old.items ++ line_text (entry_words moment conn (journal_event_of_given kept_ends k (event_given_to_session self.now)))) }
        ensures readable { (k : KEnd) → used ≡ used_in k (event_given_to_session self.now)
            → IsReadableEntry (record { line = 0; moment = moment; conn = conn; event = journal_event_of_given kept_ends k (event_given_to_session self.now) }) }
    {
        see_moment(moment);
        match *self {
            SessionEvent::Call(call) => {
                see_number(call.engine);
                see_number(call.rbc);
                see_word(call.rb);
                let event = LineEvent::Call {
                    engine: call.engine,
                    rbc: call.rbc,
                    rb: call.rb,
                };
                put(moment, conn, event, line)
            }
            SessionEvent::Octets(octets) => print_octets(moment, conn, front(octets, used), line),
            SessionEvent::Send(text) => {
                see_octets(text);
                print_send(moment, conn, text, line)
            }
            SessionEvent::Take => put(moment, conn, LineEvent::Take, line),
            SessionEvent::Release(sub) => {
                see_octet(sub);
                put(moment, conn, LineEvent::Release(sub), line)
            }
            SessionEvent::Tick => put(moment, conn, LineEvent::Tick, line),
            SessionEvent::Ended => put(moment, conn, LineEvent::Ended, line),
            SessionEvent::Fault => put(moment, conn, LineEvent::Fault, line),
            SessionEvent::Stalled => put(moment, conn, LineEvent::Stalled, line),
        }
    }
}
