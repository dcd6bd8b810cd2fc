//! The live connections.

ghost use Rattle.std.specs.Prelude.{◌≤◌, length};
ghost use Rattle.loop_session.specs.Giving.{event_given_to_session, HasFewOctets};
ghost use Rattle.std.specs.Prelude.{ℕ, ◌≡◌, ◌<◌, map, Some, OnOk, IfOk, IfSome};
ghost use Rattle.std.specs.List.{slice_get};
ghost use Rattle.safety_automaton.specs.Keys.{key_at};
ghost use Rattle.loop_model.specs.Sessions.{journal_event_of_given};
ghost use Rattle.loop_session.specs.Keeping.{kept_ends};
ghost use Rattle.outside.specs.Doings.{Told};
ghost use Rattle.application_model.specs.Ends.{numbers_unparted};
ghost use Rattle.application_model.specs.Lines.{connected_lines};
ghost use Rattle.application_model.specs.Services.{informs, occurs, takes_waiting, releases_all};
ghost use Rattle.application_serving.specs.Going.{ServiceRun};
ghost use Rattle.application_loop.specs.Standing.{Beside, scene, AtRest, Rested, RestedBut, number_of_link, pouring, none_left};
ghost use Rattle.application_loop.specs.ServingParts.{DoesPart, RestsOr, ServesWhole, IsOfClock, IsWithoutOctets, HearsSome};
ghost use Rattle.std.specs.Prelude.{◌≢◌, Ok, List, [], ◌∷◌, ◌++◌, None, false, drop, not, is_some};
ghost use Rattle.application_model.specs.Ends.{is_known};
ghost use Rattle.application_loop.specs.Standing.{known_of_link};
ghost use Rattle.application_loop.specs.Staying.{LinksStay};

use crate::agenda::{Agenda, earlier};
use crate::desk::Desk;
use crate::laws::events_serve;
use crate::link::Link;
use er_base::{Moment, NoMemory};
use er_end::End;
use journal::Journal;
use link_trait::Conn;
use loop_session::{LoopFault, SessionEvent, When};
use outside::Outside;
use safety_automaton::{KeyFinder, PairKey};
use std::alloc::Global;

/// The most connections that are live.
pub(crate) const MOST_LIVE: usize = 256;

// The live connections, numbers rising. What happens at one of them is told by its place.
#[derive(Drop)]
pub(crate) struct Links {
    list: Vec<Link>,
    // Places on the heap of ends that are over, which the next ones take. Were each of them freed and asked for again, others would come to stand in
    // them in between, and memory would grow.
    places: Vec<Box<End>>,
    // Where something may be to do: with many connections they aren't all looked at for what happens at one.
    agenda: Agenda,
}

// What of a slice stands behind so many octets.
fn behind(octets: &[u8], at: usize) -> &[u8]
    ensures { result.now ≡ drop at octets.now }
{
    octets.get(at..).unwrap_or(&[])
}

impl Links {
    // No connection, with the room for as many as may be live.
    pub(crate) fn new(alloc: Global) -> Result<Links, NoMemory>
        ensures { IfOk result (λ links. links.list.items ≡ []) }
    {
        Ok(Links {
            list: Vec::with_capacity(alloc, MOST_LIVE)?,
            places: Vec::with_capacity(alloc, MOST_LIVE)?,
            agenda: Agenda::new(),
        })
    }

    // How many there are.
    pub(crate) fn len(&self) -> usize
        ensures { result ≡ length self.now.list.items }
    {
        self.list.len()
    }

    // The place of the connection of this number.
    pub(crate) fn place_of(&self, number: u64) -> Option<usize>
        ensures found { IfSome result (λ place. slice_get (map number_of_link self.now.list.items) place ≡ Some number) }
        ensures none { result ≡ None → is_known number (map known_of_link self.now.list.items) ≡ false }
    {
        for (place, link) in self.list.iter().enumerate() {
            if link.number == number {
                return Some(place);
            }
        }
        None
    }

    // A connection joins the others; its number is above theirs.
    pub(crate) fn add(&mut self, link: Link) -> Result<(), NoMemory>
        ensures { OnOk result (self.new.list.items ≡ self.old.list.items ++ link ∷ []) }
    {
        let place = self.list.len();
        self.agenda.note(place, link.wakes());
        self.list.push(link)?;
        Ok(())
    }

    // An end, on the heap, where it stays.
    pub(crate) fn placed(&mut self, alloc: Global, end: End) -> Result<Box<End>, NoMemory>
        ensures list { self.new.list.items ≡ self.old.list.items }
        ensures end { IfOk result (λ place. place.value ≡ end) }
    {
        match self.places.pop() {
            Some(mut place) => {
                *place = end;
                Ok(place)
            }
            None => Ok(Box::new(alloc, end)?),
        }
    }

    // The first moment at which one of them is to be visited.
    fn first_wake(&self) -> Option<u64> {
        let mut first = None;
        for link in self.list.iter() {
            first = earlier(first, link.wakes());
        }
        first
    }

    // A moment before which none of them is to be visited, but now.
    pub(crate) fn until(&self) -> Option<u64> {
        self.agenda.wakes()
    }

    // Whether there is something to do at one of them now.
    pub(crate) fn is_restless(&self) -> bool {
        let (first, behind) = self.agenda.places();
        for place in first..behind {
            match self.list.get(place) {
                Some(link) => {
                    if link.is_restless() {
                        return true;
                    }
                }
                None => {}
            }
        }
        false
    }

    // An application that comes is told who is connected.
    pub(crate) fn introduce(&self, desk: &mut Desk) -> Result<(), NoMemory>
        ensures { (told : Told) (moment : ℕ) → DoesPart (λ kind s. informs (connected_lines s.known) s) moment (scene told self.now.list.items desk.old) (scene told self.now.list.items desk.new) result }
    {
        for link in self.list.iter() {
            link.introduce(desk)?;
        }
        Ok(())
    }

    // The messages that wait are taken, while the application is there and has room.
    pub(crate) fn take_waiting<O: Journal>(
        &mut self,
        when: &When,
        desk: &mut Desk,
        outside: &mut O,
    ) -> Result<(), LoopFault>
        ensures takes { DoesPart (λ kind s. takes_waiting kind when.now.moment s) when.now.moment (scene (O.told outside.old) self.old.list.items desk.old) (scene (O.told outside.new) self.new.list.items desk.new) result }
        ensures rests { OnOk result (Rested (scene (O.told outside.new) self.new.list.items desk.new)) }
        ensures numbers { map number_of_link self.new.list.items ≡ map number_of_link self.old.list.items }
    {
        crate::laws::events_serve();
        for place in 0..self.list.len() {
            if !desk.port.has_room() {
                return Ok(());
            }
            let Some(link) = self.list.get_mut(place) else {
                return Ok(());
            };
            let waits = link.waits();
            link.take_all(when, desk, outside)?;
            if waits {
                self.agenda.note(place, link.wakes());
            }
        }
        Ok(())
    }

    // The messages that wait at this connection are taken, where none wait at the others, while the application is there and has room.
    pub(crate) fn take_at<O: Journal>(
        &mut self,
        place: usize,
        when: &When,
        desk: &mut Desk,
        outside: &mut O,
    ) -> Result<(), LoopFault>
        ensures takes { RestedBut place (scene (O.told outside.old) self.old.list.items desk.old) → DoesPart (λ kind s. takes_waiting kind when.now.moment s) when.now.moment (scene (O.told outside.old) self.old.list.items desk.old) (scene (O.told outside.new) self.new.list.items desk.new) result }
        ensures rests { RestedBut place (scene (O.told outside.old) self.old.list.items desk.old) → OnOk result (Rested (scene (O.told outside.new) self.new.list.items desk.new)) }
        ensures numbers { map number_of_link self.new.list.items ≡ map number_of_link self.old.list.items }
    {
        if !desk.port.has_room() {
            return Ok(());
        }
        let Some(link) = self.list.get_mut(place) else {
            return Ok(());
        };
        link.take_all(when, desk, outside)?;
        self.agenda.note(place, link.wakes());
        Ok(())
    }

    // An event at which no key is looked up.
    pub(crate) fn occur<O: Journal>(
        &mut self,
        place: usize,
        event: &SessionEvent<'_>,
        when: &When,
        desk: &mut Desk,
        outside: &mut O,
    ) -> Result<(), LoopFault>
        requires { HasFewOctets (event_given_to_session event.now) }
        ensures occurs { (link : Link) → slice_get self.old.list.items place ≡ Some link → IsWithoutOctets (event_given_to_session event.now)
            → DoesPart (λ kind s. occurs kind when.now.moment link.number (journal_event_of_given kept_ends link.end.value (event_given_to_session event.now)) s) when.now.moment
            (scene (O.told outside.old) self.old.list.items desk.old) (scene (O.told outside.new) self.new.list.items desk.new) result }
        ensures numbers { map number_of_link self.new.list.items ≡ map number_of_link self.old.list.items }
        ensures others { (at : ℕ) → at ≢ place → slice_get self.new.list.items at ≡ slice_get self.old.list.items at }
        ensures rests { OnOk result (Rested (scene (O.told outside.old) self.old.list.items desk.old) → RestedBut place (scene (O.told outside.new) self.new.list.items desk.new)) }
    {
        crate::laws::events_serve();
        if let Some(link) = self.list.get_mut(place) {
            link.occur(event, &None::<PairKey>, when, desk, outside)?;
            self.agenda.note(place, link.wakes());
        }
        Ok(())
    }

    // An event that comes by the line or the clock, and behind it the messages that wait are taken.
    pub(crate) fn befall<O: Journal>(
        &mut self,
        place: usize,
        event: &SessionEvent<'_>,
        when: &When,
        desk: &mut Desk,
        outside: &mut O,
    ) -> Result<(), LoopFault>
        requires { HasFewOctets (event_given_to_session event.now) }
        ensures serves { (link : Link) → slice_get self.old.list.items place ≡ Some link → IsOfClock (event_given_to_session event.now)
            → ServesWhole when.now.moment (scene (O.told outside.old) self.old.list.items desk.old) (scene (O.told outside.new) self.new.list.items desk.new) result }
        ensures numbers { map number_of_link self.new.list.items ≡ map number_of_link self.old.list.items }
    {
        self.occur(place, event, when, desk, outside)?;
        self.take_at(place, when, desk, outside)
    }

    // Octets come from the line, and the end uses them up to the first closed frame. How many octets it used; None where none are left, or nothing more is
    // given to it.
    fn hear<K: KeyFinder, O: Journal>(
        &mut self,
        place: usize,
        octets: &[u8],
        keys: &K,
        when: &When,
        desk: &mut Desk,
        outside: &mut O,
    ) -> Result<Option<usize>, LoopFault>
        requires { length octets.now ≤ 4096 }
        ensures hears { (link : Link) (run : ServiceRun) (beside : Beside) → slice_get self.old.list.items place ≡ Some link → beside.moment ≡ when.now.moment
            → key_at (K.entries keys.now) ≡ beside.finds
            → AtRest run (pouring beside link.number octets.now) (scene (O.told outside.old) self.old.list.items desk.old)
            → HearsSome run beside link octets.now (scene (O.told outside.new) self.new.list.items desk.new) result }
        ensures within { IfOk result (λ used. IfSome used (λ count. (0 < count) × (count ≤ length octets.now))) }
        ensures still { result ≡ Ok None → self.new.list.items ≡ self.old.list.items }
        ensures numbers { map number_of_link self.new.list.items ≡ map number_of_link self.old.list.items }
    {
        events_serve();
        er_end::laws::used_octets();
        let Some(link) = self.list.get_mut(place) else {
            return Ok(None);
        };
        if octets.is_empty() || link.is_broken() {
            return Ok(None);
        }
        let used = link.occur(&SessionEvent::Octets(octets), keys, when, desk, outside)?;
        self.agenda.note(place, link.wakes());
        self.take_at(place, when, desk, outside)?;
        Ok(Some(used))
    }

    // The octets of a read come: they are given to the end frame by frame, until the connection breaks off.
    pub(crate) fn pour<K: KeyFinder, O: Journal>(
        &mut self,
        place: usize,
        octets: &[u8],
        keys: &K,
        when: &When,
        desk: &mut Desk,
        outside: &mut O,
    ) -> Result<(), LoopFault>
        requires { length octets.now ≤ 4096 }
        ensures pours { (link : Link) (run : ServiceRun) (beside : Beside) → slice_get self.old.list.items place ≡ Some link → beside.moment ≡ when.now.moment
            → key_at (K.entries keys.now) ≡ beside.finds → beside.left ≡ none_left
            → AtRest run (pouring beside link.number octets.now) (scene (O.told outside.old) self.old.list.items desk.old) → RestsOr run beside (scene (O.told outside.new) self.new.list.items desk.new) result }
    {
        let mut rest = octets;
        for _ in 0..octets.len() {
            match self.hear(place, rest, keys, when, desk, outside)? {
                Some(used) => rest = behind(rest, used),
                None => return Ok(()),
            }
        }
        Ok(())
    }

    // Whether the connection at this place is read from: its end isn't released.
    pub(crate) fn is_heard(&self, place: usize) -> bool
        ensures { (link : Link) → slice_get self.now.list.items place ≡ Some link → result ≡ not (is_some link.end.value.core.released) }
    {
        match self.list.get(place) {
            Some(link) => !link.is_released(),
            None => false,
        }
    }

    // There may be room for octets again.
    pub(crate) fn has_room_again(&mut self, place: usize)
        ensures { LinksStay self.old.list.items self.new.list.items }
    {
        if let Some(link) = self.list.get_mut(place) {
            link.has_room_again();
            self.agenda.note(place, link.wakes());
        }
    }

    // All ends that aren't released are.
    pub(crate) fn release_all<O: Journal>(
        &mut self,
        when: &When,
        desk: &mut Desk,
        outside: &mut O,
    ) -> Result<(), LoopFault>
        ensures releases { DoesPart (λ kind s. releases_all kind when.now.moment (numbers_unparted s.known) s) when.now.moment (scene (O.told outside.old) self.old.list.items desk.old) (scene (O.told outside.new) self.new.list.items desk.new) result }
    {
        for place in 0..self.list.len() {
            if self.is_heard(place) {
                self.occur(place, &SessionEvent::Release(0), when, desk, outside)?;
            }
        }
        Ok(())
    }

    // Whether the end at this place wants a tick.
    fn is_due(&self, place: usize, moment: Moment) -> bool {
        match self.list.get(place) {
            Some(link) => link.is_due(moment),
            None => false,
        }
    }

    // The ends whose deadline has come are ticked.
    pub(crate) fn tick<O: Journal>(
        &mut self,
        when: &When,
        desk: &mut Desk,
        outside: &mut O,
    ) -> Result<(), LoopFault>
        ensures serves { ServesWhole when.now.moment (scene (O.told outside.old) self.old.list.items desk.old) (scene (O.told outside.new) self.new.list.items desk.new) result }
    {
        for place in 0..self.list.len() {
            if self.is_due(place, when.moment) {
                self.befall(place, &SessionEvent::Tick, when, desk, outside)?;
            }
        }
        Ok(())
    }

    // The connection at this place is closed.
    fn close<O: Outside>(&mut self, place: usize, outside: &mut O)
        ensures rests { (run : ServiceRun) (beside : Beside) (desk : Desk) → AtRest run beside (scene (O.told outside.old) self.old.list.items desk)
            → AtRest run beside (scene (O.told outside.new) self.new.list.items desk) }
    {
        if place >= self.list.len() {
            return;
        }
        let link = self.list.remove(place);
        self.agenda.removed(place);
        outside.close(Conn(link.number));
        self.keep_place(link.into_end());
    }

    // The place of an end that is over is kept, unless as many are kept already as may be.
    fn keep_place(&mut self, end: Box<End>)
        ensures { self.new.list.items ≡ self.old.list.items }
    {
        if self.places.len() < self.places.capacity() {
            // The room was reserved.
            let _kept = self.places.push(end);
        }
    }

    // Whether the connection at this place is closed at this moment at the latest.
    fn is_expired(&self, place: usize, moment: Moment) -> bool {
        match self.list.get(place) {
            Some(link) => link.is_expired(moment),
            None => false,
        }
    }

    // The connections are closed whose closing moment has come.
    pub(crate) fn close_expired<O: Outside>(&mut self, moment: Moment, outside: &mut O)
        ensures rests { (run : ServiceRun) (beside : Beside) (desk : Desk) → AtRest run beside (scene (O.told outside.old) self.old.list.items desk)
            → AtRest run beside (scene (O.told outside.new) self.new.list.items desk) }
    {
        let mut place = 0;
        for _ in 0..self.list.len() {
            if self.is_expired(place, moment) {
                self.close(place, outside);
            } else {
                place += 1;
            }
        }
        let wakes = self.first_wake();
        self.agenda.wakes_at(wakes);
    }

    // Whether the connection at this place is to be closed at once.
    fn is_done(&self, place: usize) -> bool {
        match self.list.get(place) {
            Some(link) => link.is_done(),
            None => false,
        }
    }

    // Where octets didn't fit, that is an event.
    fn stall<O: Journal>(
        &mut self,
        place: usize,
        when: &When,
        desk: &mut Desk,
        outside: &mut O,
    ) -> Result<(), LoopFault>
        ensures serves { ServesWhole when.now.moment (scene (O.told outside.old) self.old.list.items desk.old) (scene (O.told outside.new) self.new.list.items desk.new) result }
    {
        let Some(link) = self.list.get_mut(place) else {
            return Ok(());
        };
        if !link.take_stall() {
            return Ok(());
        }
        self.befall(place, &SessionEvent::Stalled, when, desk, outside)
    }

    // What waits is written. A write that fails is an event, but at an end that is released.
    fn write<O: Journal>(
        &mut self,
        place: usize,
        when: &When,
        desk: &mut Desk,
        outside: &mut O,
    ) -> Result<(), LoopFault>
        ensures serves { ServesWhole when.now.moment (scene (O.told outside.old) self.old.list.items desk.old) (scene (O.told outside.new) self.new.list.items desk.new) result }
    {
        let Some(link) = self.list.get_mut(place) else {
            return Ok(());
        };
        if !link.write_out(outside) {
            return Ok(());
        }
        self.befall(place, &SessionEvent::Fault, when, desk, outside)
    }

    // What waits is written at each connection where something may be to do, and those are closed that are to be closed at once.
    pub(crate) fn settle<O: Journal>(
        &mut self,
        when: &When,
        desk: &mut Desk,
        outside: &mut O,
    ) -> Result<(), LoopFault>
        ensures serves { ServesWhole when.now.moment (scene (O.told outside.old) self.old.list.items desk.old) (scene (O.told outside.new) self.new.list.items desk.new) result }
    {
        let (mut place, behind) = self.agenda.places();
        self.agenda.done();
        for _ in place..behind {
            self.stall(place, when, desk, outside)?;
            self.write(place, when, desk, outside)?;
            if self.is_done(place) {
                self.close(place, outside);
            } else {
                place += 1;
            }
        }
        Ok(())
    }
}
