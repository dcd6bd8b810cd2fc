//! A live connection: its end, and the octets that wait to be written.

ghost use Rattle.std.specs.Prelude.{◌≡◌, [], ◌∷◌, option_map, IfOk, OnOk};
ghost use Rattle.loop_model.specs.Sessions.{Rules};
ghost use Rattle.journal.specs.Tallies.{IsTallyOf};
ghost use Rattle.loop_session.specs.Giving.{event_given_to_session, HasFewOctets, IsSameWith, used_in};
ghost use Rattle.er_end.specs.Given.{outcomes_in};
ghost use Rattle.loop_session.specs.Parts.{writes_of_entries, OnlyPrints, Puts};
ghost use Rattle.application_loop.specs.Occurring.{message_sent_by, entry_at_link, peer_behind_outcomes, Occurs};
ghost use Rattle.application_loop.specs.Writing.{WritesFrom};
ghost use Rattle.std.specs.Prelude.{List, true, false, length, ◌++◌};
ghost use Rattle.er_end.specs.KeptEnds.{waiting_in};
ghost use Rattle.application_model.specs.Services.{has_room, takes_most};
ghost use Rattle.application_port.specs.Ports.{attendance_of};
ghost use Rattle.application_loop.specs.Standing.{scene};
ghost use Rattle.application_loop.specs.ServingParts.{DoesPart};
ghost use Rattle.std.specs.Prelude.{is_some};
ghost use Rattle.application_loop.specs.Staying.{StaysAtLink};
ghost use Rattle.application_loop.specs.Starting.{IsNewLink};
ghost use Rattle.std.specs.List.{flat_map};
ghost use Rattle.application_lines.specs.Notices.{notice_text};
ghost use Rattle.application_model.specs.Lines.{stage_line};
ghost use Rattle.application_port.specs.Ports.{told_at_port};
ghost use Rattle.application_loop.specs.Standing.{known_of_link};

use crate::desk::Desk;
use crate::flow::Flow;
use application_lines::Notice;
use bytes::BytesMut;
use er_base::{Moment, NoMemory};
use er_end::{Effects, End};
use journal::{EventTally, Journal};
use link_trait::{Conn, WriteAnswer};
use loop_session::{LoopFault, SessionEvent, When, conclude, ignored_by, record_lines};
use outside::Outside;
use safety_automaton::{KeyFinder, PairKey};
use std::alloc::Global;

// A live connection.
#[derive(Drop)]
pub(crate) struct Link {
    pub(crate) number: u64,
    // The octets that wait to be written.
    output: BytesMut,
    // The peer of an end that is connected and wasn't released.
    peer: Option<u32>,
    // It is to be closed, and nothing more is written to it.
    broken: bool,
    // Octets didn't fit: the event `stalled` is to come.
    stalls: bool,
    // There was no room for octets.
    put_off: bool,
    // When it is closed at the latest, once its end was released.
    closing: Option<u64>,
    // On the heap: eight thousand octets.
    end: Box<End>,
}

// What an event came to: how many octets the end used, and what its lines count.
#[derive(Clone, Copy)]
struct Given {
    used: usize,
    tally: EventTally,
}

// The message that an event sends.
fn sent_by<'a>(event: &SessionEvent<'a>) -> Option<&'a [u8]>
    ensures { option_map (λ m. m.now) result ≡ message_sent_by (event_given_to_session event.now) }
{
    match *event {
        SessionEvent::Send(text) => Some(text),
        _ => None,
    }
}

// A moment is there and has come.
fn has_come(at: Option<u64>, moment: Moment) -> bool {
    match at {
        Some(at) => at <= moment.get(),
        None => false,
    }
}

// The first of two moments.
fn first_of(one: Option<u64>, other: Option<u64>) -> Option<u64> {
    let Some(one) = one else {
        return other;
    };
    let Some(other) = other else {
        return Some(one);
    };
    Some(one.min(other))
}

// The peer that is connected behind an event.
fn peer_behind(before: Option<u32>, effects: &Effects<'_>) -> Option<u32>
    ensures { result ≡ peer_behind_outcomes before (outcomes_in effects.now) }
{
    if effects.deeds.released.is_some() {
        return None;
    }
    match effects.deeds.connected {
        Some(peer) => Some(peer),
        None => before,
    }
}

impl Link {
    // A connection that was opened, with this end.
    pub(crate) fn new(alloc: Global, number: u64, end: Box<End>) -> Link
        ensures { IsNewLink number end.value result }
    {
        Link {
            number,
            output: BytesMut::new(alloc),
            peer: None,
            broken: false,
            stalls: false,
            put_off: false,
            closing: None,
            end,
        }
    }

    // Its end, where it stands: the connection is closed.
    pub(crate) fn into_end(self) -> Box<End> {
        self.end
    }

    // An event is given to its end: its lines are printed, the application is told, and the octets that the end gives join those that wait.
    fn give<K: KeyFinder>(
        &mut self,
        event: &SessionEvent<'_>,
        keys: &K,
        when: &When,
        desk: &mut Desk,
    ) -> Result<Given, NoMemory>
        requires { HasFewOctets (event_given_to_session event.now) }
        ensures occurs { (r : Rules) → IsSameWith (K.entries keys.now) r (event_given_to_session event.now)
            → OnOk result (Occurs r when.now.moment (event_given_to_session event.now) self.old self.new desk.old desk.new) }
        ensures counts { IfOk result (λ given. IsTallyOf desk.new.line.items given.tally) }
        ensures number { self.new.number ≡ self.old.number }
        ensures used { IfOk result (λ given. given.used ≡ used_in self.old.end.value (event_given_to_session event.now)) }
    {
        let ignored_before = ignored_by(&self.end);
        let effects = self.end.apply(keys, when.moment, &event.at_end());
        let came = conclude(
            event,
            &effects,
            ignored_before,
            when.moment,
            self.number,
            &mut desk.line,
            &mut self.output,
        )?;
        self.peer = peer_behind(self.peer, &effects);
        desk.tell(self.number, &sent_by(event), &effects)?;
        self.note(event.breaks(), came.fits, when);
        Ok(Given {
            used: came.used,
            tally: came.tally(&self.end),
        })
    }

    // An event at its end: its lines are recorded, the application is told, and the octets that the end gives join those that wait. How many octets
    // the end used.
    pub(crate) fn occur<K: KeyFinder, O: Journal>(
        &mut self,
        event: &SessionEvent<'_>,
        keys: &K,
        when: &When,
        desk: &mut Desk,
        outside: &mut O,
    ) -> Result<usize, LoopFault>
        requires { HasFewOctets (event_given_to_session event.now) }
        ensures records { (r : Rules) → IsSameWith (K.entries keys.now) r (event_given_to_session event.now)
            → Puts (O.told outside.old) (O.told outside.new) (writes_of_entries (entry_at_link r when.now.moment self.old (event_given_to_session event.now) ∷ [])) result }
        ensures occurs { (r : Rules) → IsSameWith (K.entries keys.now) r (event_given_to_session event.now)
            → OnOk result (Occurs r when.now.moment (event_given_to_session event.now) self.old self.new desk.old desk.new) }
        ensures number { self.new.number ≡ self.old.number }
        ensures used { IfOk result (λ used. used ≡ used_in self.old.end.value (event_given_to_session event.now)) }
        ensures only { OnlyPrints (O.told outside.old) (O.told outside.new) }
    {
        let given = self.give(event, keys, when, desk)?;
        record_lines(desk.line.as_slice(), &given.tally, outside)?;
        Ok(given.used)
    }

    // Behind an event: it may break, its octets may not have fit, and its end may have been released.
    fn note(&mut self, breaks: bool, fits: bool, when: &When)
        ensures number { self.new.number ≡ self.old.number }
        ensures end { self.new.end.value ≡ self.old.end.value }
        ensures output { self.new.output.items ≡ self.old.output.items }
        ensures peer { self.new.peer ≡ self.old.peer }
        ensures broken { self.new.broken ≡ false → (self.old.broken ≡ false) × (breaks ≡ false) × (fits ≡ true) }
    {
        if breaks {
            self.broken = true;
        }
        if !fits {
            self.broken = true;
            self.stalls = true;
        }
        if self.closing.is_none() && self.end.released().is_some() {
            self.closing = Some(when.closing());
        }
    }

    // Whether messages wait to be taken.
    pub(crate) fn waits(&self) -> bool {
        self.end.waiting() > 0
    }

    // The messages that wait are taken, while the application is there and has room.
    pub(crate) fn take_all<O: Journal>(
        &mut self,
        when: &When,
        desk: &mut Desk,
        outside: &mut O,
    ) -> Result<(), LoopFault>
        ensures takes { (front back : List Link) → DoesPart (λ kind s. takes_most kind when.now.moment self.old.number (length (waiting_in self.old.end.value)) s) when.now.moment
            (scene (O.told outside.old) (front ++ self.old ∷ back) desk.old) (scene (O.told outside.new) (front ++ self.new ∷ back) desk.new) result }
        ensures none { OnOk result (has_room (attendance_of desk.new.port) ≡ true → waiting_in self.new.end.value ≡ []) }
        ensures room { OnOk result (has_room (attendance_of desk.new.port) ≡ true → has_room (attendance_of desk.old.port) ≡ true) }
        ensures number { self.new.number ≡ self.old.number }
        ensures only { OnlyPrints (O.told outside.old) (O.told outside.new) }
    {
        crate::laws::events_serve();
        for _ in 0..self.end.waiting() {
            if !desk.port.has_room() {
                return Ok(());
            }
            self.occur(&SessionEvent::Take, &None::<PairKey>, when, desk, outside)?;
        }
        Ok(())
    }

    // An application that comes is told of it, where its end is connected.
    pub(crate) fn introduce(&self, desk: &mut Desk) -> Result<(), NoMemory>
        ensures told { OnOk result (desk.new.port ≡ told_at_port (flat_map notice_text (stage_line self.now.number (known_of_link self.now).stage)) desk.old.port) }
        ensures opened { desk.new.opened ≡ desk.old.opened }
        ensures connected { desk.new.connected ≡ desk.old.connected }
        ensures messages { desk.new.messages ≡ desk.old.messages }
    {
        if self.is_released() {
            return Ok(());
        }
        match self.peer {
            Some(peer) => desk.port.tell(&Notice::Connected {
                connection: self.number,
                peer,
            }),
            None => Ok(()),
        }
    }

    // There may be room for octets again.
    pub(crate) fn has_room_again(&mut self)
        ensures { StaysAtLink self.old self.new }
    {
        self.put_off = false;
    }

    // Its event `stalled` is to come: from now on it isn't any more.
    pub(crate) fn take_stall(&mut self) -> bool
        ensures { StaysAtLink self.old self.new }
    {
        let stalls = self.stalls;
        self.stalls = false;
        stalls
    }

    // What waits is written, unless it broke off or there was no room. Whether a write failed that is the event `fault`.
    #[tactic(auto, using(crate::proofs::Writes::writes_none))]
    pub(crate) fn write_out<O: Outside>(&mut self, outside: &mut O) -> bool
        ensures writes { WritesFrom self.old.number (O.told outside.old) (O.told outside.new) self.old.output.items self.new.output.items }
        ensures number { self.new.number ≡ self.old.number }
        ensures end { self.new.end.value ≡ self.old.end.value }
        ensures peer { self.new.peer ≡ self.old.peer }
        ensures rests { self.old.broken ≡ true → self.new ≡ self.old }
        ensures told { self.old.broken ≡ true → O.told outside.new ≡ O.told outside.old }
    {
        if self.broken {
            return false;
        }
        if self.put_off {
            return false;
        }
        match self.write_all(outside) {
            Flow::Going => false,
            Flow::PutOff => {
                self.put_off = true;
                false
            }
            Flow::Failing => {
                self.broken = true;
                self.end.released().is_none()
            }
        }
    }

    // The output is written until nothing waits, or there is no room, or a write fails.
    #[tactic(auto, using(crate::proofs::Writes::writes_none, crate::proofs::Writes::writes_some, crate::proofs::Writes::writes_not_now, crate::proofs::Writes::writes_failed))]
    fn write_all<O: Outside>(&mut self, outside: &mut O) -> Flow
        ensures writes { WritesFrom self.old.number (O.told outside.old) (O.told outside.new) self.old.output.items self.new.output.items }
        ensures number { self.new.number ≡ self.old.number }
        ensures end { self.new.end.value ≡ self.old.end.value }
        ensures peer { self.new.peer ≡ self.old.peer }
    {
        while !self.output.is_empty() {
            match outside.send(Conn(self.number), self.output.as_slice()) {
                WriteAnswer::Some(count) => self.output.advance(count),
                WriteAnswer::NotNow => return Flow::PutOff,
                WriteAnswer::Failed => return Flow::Failing,
            }
        }
        Flow::Going
    }

    // Whether it is to be closed at once: it broke off, or its end was released and nothing waits, to be written or to be taken.
    pub(crate) fn is_done(&self) -> bool {
        if self.broken {
            return !self.stalls;
        }
        if self.end.released().is_none() {
            return false;
        }
        if self.end.waiting() > 0 {
            return false;
        }
        self.output.is_empty()
    }

    // Whether there is something to do at it now.
    pub(crate) fn is_restless(&self) -> bool {
        if self.stalls {
            return true;
        }
        if self.is_done() {
            return true;
        }
        if self.broken || self.put_off {
            return false;
        }
        !self.output.is_empty()
    }

    // Whether nothing more is written to it.
    pub(crate) fn is_broken(&self) -> bool
        ensures { result ≡ self.now.broken }
    {
        self.broken
    }

    // Whether its end was released.
    pub(crate) fn is_released(&self) -> bool
        ensures { result ≡ is_some self.now.end.value.core.released }
    {
        self.end.released().is_some()
    }

    // Whether its end wants a tick at this moment.
    pub(crate) fn is_due(&self, moment: Moment) -> bool {
        has_come(self.end.deadline(), moment)
    }

    // Whether it is closed at this moment at the latest.
    pub(crate) fn is_expired(&self, moment: Moment) -> bool {
        has_come(self.closing, moment)
    }

    // The moment at which it is to be visited next.
    pub(crate) fn wakes(&self) -> Option<u64> {
        first_of(self.end.deadline(), self.closing)
    }
}
