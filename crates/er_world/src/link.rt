//! A link: two ends, and in each direction the frames that wait.

ghost use Rattle.std.specs.Prelude.{◌≡◌, ◌++◌, List, length, slice_get, option_map, IfOk, OnOk};
ghost use Rattle.safety_automaton.specs.Keys.{key_at};
ghost use Rattle.safety_pair_laws.specs.Marks.{MarksGrow};
ghost use Rattle.drill_model.specs.Growth.{FactsGrow, LinkMarksGrow};
ghost use Rattle.drill_model.specs.Outcomes.{Occurrence};
ghost use Rattle.drill_model.specs.Ends as model;
ghost use Rattle.drill_model.specs.Links.{Pass, Change as ChangeStep, Release, Tick, give, link_step};
ghost use Rattle.drill_model.specs.Links as steps;
ghost use Rattle.drill_model.specs.Worlds.{drain};
ghost use Rattle.drill_ends.specs.Events.{event_of};
ghost use Rattle.er_world.specs.Changes.{action_step, change_of};
ghost use Rattle.er_world.specs.KeptLinks.{LinkDoes, TakesFirstWaitingFrame, ChangesFrames, StandsLink, Drains, waiting_frames_of_side, new_link, next_at, overfull_side_of_kept, next_drained_side, closing_kept};

use crate::action::{Action, LineChange};
use crate::counts::{count_change, count_pass, no_totals};
use crate::ledger::Ledger;
use crate::lines::{print_change, print_empty, put_count};
use crate::place::Place;
use crate::port::Port;
use crate::waiting::Change;
use drill_ends::{DrillEnd, EndEvent, OneKey};
use drill_model::Totals;
use er_base::{Moment, NoMemory, Octets, Side};
use std::alloc::Global;

/// The most frames that may wait in one direction.
pub const MOST_WAITING: usize = 4096;

/// Two ends, the keys that they can find, what is kept of all that came, the moment, and the counts so far.
#[derive(Drop)]
pub struct Link {
    e: Port,
    r: Port,
    keys: OneKey,
    ledger: Ledger,
    moment: Moment,
    totals: Totals,
}

/// What the marks of a link are made of grows with what comes.
fn marks_grow()
    ensures marks { MarksGrow }
    ensures facts { FactsGrow }
    ensures lines { LinkMarksGrow }
{
    safety_pair_laws::laws::marks_grow();
    drill_model::laws::histories();
    drill_model::laws::marks_grow();
}

impl Link {
    /// A link of these two ends, the engine's first, with no frame that waits.
    pub fn new(alloc: Global, e: DrillEnd, r: DrillEnd, keys: OneKey, moment: Moment) -> Link
        ensures { result ≡ new_link e r keys moment }
    {
        Link {
            e: Port::new(alloc, e),
            r: Port::new(alloc, r),
            keys,
            ledger: Ledger::new(alloc),
            moment,
            totals: no_totals(),
        }
    }

    /// An event at an end.
    pub fn give(
        &mut self,
        alloc: Global,
        place: Place,
        event: &EndEvent,
        out: &mut Vec<u8>,
    ) -> Result<(), NoMemory>
        ensures { OnOk result (LinkDoes (λ l. give l place.side (event_of event.now)) place.show place.number self.old self.new out.old.items out.new.items) }
    {
        marks_grow();
        match place.side {
            Side::E => self.e.answer(
                alloc,
                place,
                &self.keys,
                self.moment,
                event,
                &mut self.ledger,
                &mut self.totals,
                out,
            ),
            Side::R => self.r.answer(
                alloc,
                place,
                &self.keys,
                self.moment,
                event,
                &mut self.ledger,
                &mut self.totals,
                out,
            ),
        }
    }

    /// Takes the first waiting frame of an end.
    fn take_first(&mut self, side: Side) -> Option<Octets>
        ensures { TakesFirstWaitingFrame self.old side result self.new }
    {
        match side {
            Side::E => self.e.take_first(),
            Side::R => self.r.take_first(),
        }
    }

    /// The first waiting frame of an end is given to the other end.
    pub fn pass(&mut self, alloc: Global, place: Place, out: &mut Vec<u8>) -> Result<(), NoMemory>
        ensures { OnOk result (LinkDoes (λ l. link_step l (Pass place.side)) place.show place.number self.old self.new out.old.items out.new.items) }
    {
        marks_grow();
        let Some(frame) = self.take_first(place.side) else {
            return print_empty(alloc, place, out);
        };
        count_pass(&mut self.totals);
        let event = EndEvent::Receive(frame.as_slice());
        self.give(alloc, place.other(), &event, out)
    }

    /// The line changes the waiting frames of an end.
    fn change_frames(
        &mut self,
        alloc: Global,
        side: Side,
        how: &LineChange,
    ) -> Result<Change, NoMemory>
        ensures { IfOk result (λ change. ChangesFrames self.old side how.now change self.new) }
    {
        match side {
            Side::E => self.e.change(alloc, how),
            Side::R => self.r.change(alloc, how),
        }
    }

    /// The line changes the waiting frames of an end; what comes of it is counted and printed.
    fn change(
        &mut self,
        alloc: Global,
        place: Place,
        how: &LineChange,
        out: &mut Vec<u8>,
    ) -> Result<(), NoMemory>
        ensures { OnOk result (LinkDoes (λ l. link_step l (ChangeStep place.side (change_of how.now))) place.show place.number self.old self.new out.old.items out.new.items) }
    {
        marks_grow();
        let change = self.change_frames(alloc, place.side, how)?;
        count_change(change, &mut self.totals);
        print_change(alloc, place, change, out)
    }

    /// The user at an end releases, with a sub-reason.
    fn release(
        &mut self,
        alloc: Global,
        place: Place,
        sub: u8,
        out: &mut Vec<u8>,
    ) -> Result<(), NoMemory>
        ensures { OnOk result (LinkDoes (λ l. link_step l (Release place.side sub)) place.show place.number self.old self.new out.old.items out.new.items) }
    {
        marks_grow();
        self.give(alloc, place, &EndEvent::Release(sub), out)
    }

    /// One step of the link at an end; what comes of it is printed.
    pub fn apply(
        &mut self,
        alloc: Global,
        place: Place,
        action: &Action,
        out: &mut Vec<u8>,
    ) -> Result<(), NoMemory>
        ensures { OnOk result (LinkDoes (λ l. link_step l (action_step place.side action.now)) place.show place.number self.old self.new out.old.items out.new.items) }
    {
        match action {
            Action::Send(user) => self.give(alloc, place, &EndEvent::Send(user), out),
            Action::Pass => self.pass(alloc, place, out),
            Action::Change(how) => self.change(alloc, place, how, out),
            Action::Take => self.give(alloc, place, &EndEvent::Take, out),
            Action::Release(sub) => self.release(alloc, place, *sub, out),
        }
    }

    /// The moment has come, at both ends.
    pub fn tick(
        &mut self,
        alloc: Global,
        number: u8,
        show: bool,
        moment: Moment,
        out: &mut Vec<u8>,
    ) -> Result<(), NoMemory>
        ensures { OnOk result (LinkDoes (λ l. link_step l (Tick moment)) show number self.old self.new out.old.items out.new.items) }
    {
        marks_grow();
        self.moment = self.moment.later(moment);
        let e = Place {
            number,
            side: Side::E,
            show,
        };
        self.give(alloc, e, &EndEvent::Tick, out)?;
        self.give(alloc, e.other(), &EndEvent::Tick, out)
    }

    /// The counts of all that came.
    pub fn totals(&self) -> Totals
        ensures { result ≡ self.now.totals }
    {
        self.totals
    }

    /// The octets of the first waiting frame of an end.
    pub fn first(&self, side: Side) -> Option<&[u8]>
        ensures { option_map (λ f. f.now) result ≡ slice_get (waiting_frames_of_side self.now side) 0 }
    {
        match side {
            Side::E => self.e.waiting().first(),
            Side::R => self.r.waiting().first(),
        }
    }

    /// The end of which more than 4,096 frames wait, if there is one.
    pub fn overfull(&self) -> Option<Side>
        ensures { result ≡ overfull_side_of_kept self.now }
    {
        if self.e.waiting().len() > MOST_WAITING {
            return Some(Side::E);
        }
        if self.r.waiting().len() > MOST_WAITING {
            return Some(Side::R);
        }
        None
    }

    /// The end whose frame a drain passes next: e where a frame of e waits, else r where one of r waits.
    fn next_side(&self) -> Option<Side>
        ensures { result ≡ next_at self.now }
    {
        if self.e.waiting().len() > 0 {
            return Some(Side::E);
        }
        if self.r.waiting().len() > 0 {
            return Some(Side::R);
        }
        None
    }

    /// The end whose frame a drain passes next, none where too many frames wait.
    fn next_pass(&self) -> Option<Side>
        ensures { result ≡ next_drained_side (next_at self.now) (overfull_side_of_kept self.now) }
    {
        let side = self.next_side()?;
        match self.overfull() {
            Some(_) => None,
            None => Some(side),
        }
    }

    /// Passes frames until none waits, too many wait, or as many as named were passed; answers how many passes it made.
    pub fn drain(
        &mut self,
        alloc: Global,
        number: u8,
        show: bool,
        most: u32,
        out: &mut Vec<u8>,
    ) -> Result<u32, NoMemory>
        ensures { IfOk result (λ passes. (l : steps.Link) (history : List Occurrence) → StandsLink self.old l history
            → Drains (drain most l) show number passes history self.new out.old.items out.new.items) }
    {
        marks_grow();
        let mut passes = 0;
        while passes < most {
            let Some(side) = self.next_pass() else {
                return Ok(passes);
            };
            let place = Place { number, side, show };
            self.pass(alloc, place, out)?;
            passes += 1;
        }
        Ok(passes)
    }

    /// Prints the closing line of the link of a number. After want of memory nothing was printed.
    #[tactic(auto, unfolding(crate::specs::KeptLinks::closing_kept))]
    pub fn close(&self, alloc: Global, number: u8, out: &mut Vec<u8>) -> Result<(), NoMemory>
        ensures { OnOk result (out.new.items ≡ out.old.items ++ closing_kept number self.now) }
    {
        let mut line = Vec::new(alloc);
        put_count(b"", number as u64, &mut line)?;
        put_count(b" end passes ", self.totals.passes, &mut line)?;
        put_count(b" waiting ", self.e.waiting().len() as u64, &mut line)?;
        put_count(b" ", self.r.waiting().len() as u64, &mut line)?;
        line.extend_from_slice(b"\n")?;
        out.extend_from_slice(line.as_slice())?;
        Ok(())
    }
}
