//! The world of a drill: up to 64 links, and the steps of a scenario.

ghost use Rattle.std.specs.Prelude.{ℕ, ◌≡◌, ◌*◌, ◌++◌, ◌≤◌, ◌<◌, [], List, length, slice_get, slice_set, option_map, Bool, Some, true, false, IfOk, IfErr, IfSome, OnOk, OnErr};
ghost use Rattle.er_scenario.specs.Choices.{IsNarrow};
ghost use Rattle.er_scenario.specs.declared.step.Step.{Step as AnyStep};
ghost use Rattle.safety_pair_laws.specs.Marks.{MarksGrow};
ghost use Rattle.drill_model.specs.Growth.{FactsGrow, HistoryGrows, HistoryOfOwn, HistoryOfOther, LinkMarksGrow, WorldMarksGrow, LinkText};
ghost use Rattle.drill_model.specs.StepLevels.{IsOfLevel};
ghost use Rattle.drill_model.specs.Links.{OfStations, Tick};
ghost use Rattle.drill_model.specs.Worlds.{DrillPlan, link_at, is_link, fixed_opening, link_opening, wire_opening, open_link, at_link, drain_link, copy_between, tick_each_link, tick_world, world_run, world_step};
ghost use Rattle.drill_model.specs.Faults.{wants, wants_closed, wants_moment, or_else, refusal_of_step};
ghost use Rattle.drill_model.specs.Texts.{last_lines};
ghost use Rattle.drill_model.specs.Totals.{totals_of};
ghost use Rattle.er_world.specs.Changes.{action_step};
ghost use Rattle.er_world.specs.KeptLinks.{waiting_frames_of_side};
ghost use Rattle.er_world.specs.Standing.{Ran, Applied, IsFaultBehind, LeavesIt, kept_at};
ghost use Rattle.er_world.specs.WorldSteps.{DoesWorldStep, WorldDoes, EndsWorldStep, world_left_by_fault, touched, overfull_in, overfull_from, overfull_by, place_closing, place_totals, closing_lines};

use crate::action::{Action, LineChange};
use crate::counts::{no_totals, sum};
use crate::lines::{print_empty, print_passes};
use crate::link::{Link, MOST_WAITING};
use crate::openings::{called, fixed, stacked, wired};
use crate::place::Place;
use des_block::TripleKey;
use drill_ends::StationPlan;
use drill_model::{Totals, WorldFault};
use er_base::{EtcsNumber, Moment, NoMemory, Octets, Side};
use er_scenario::{Level, Step};
use er_settings::Settings;
use std::alloc::Global;
use std::marker::Model;

/// The places of links: link N stands at place N, and place 0 stays empty.
const PLACES: usize = 65;

/// The world of a drill: its links, and what comes of its steps as text.
#[derive(Drop)]
pub struct World {
    level: Level,
    settings: Settings,
    show: bool,
    places: Vec<Option<Link>>,
    moment: Moment,
    spent: bool,
}

impl Model for World {
    ghost use Rattle.std.specs.Prelude.{◌≡◌, length};
    ghost use Rattle.er_scenario.specs.Choices.{IsNarrow};
    ghost use Rattle.er_world.specs.Standing.{KeptWorld};

    ghost Value = { KeptWorld };

    ghost view = { λ w. record {
      plan = record { level = w.level; settings = w.settings; show = w.show };
      spent = w.spent;
      links = w.places.items;
      moment = w.moment;
    } };

    ghost invariant = { λ w. (length w.places.items ≡ 65) × IsNarrow w.level w.settings };
}

/// Whether a link may have this number.
fn is_link(number: u8) -> bool
    ensures { result ≡ is_link number }
{
    0 < number && number < 65
}

/// The one link in which frames may come to wait by a step; none for a tick, which may make them wait in any.
fn touched(step: &Step) -> Option<u8>
    ensures { result ≡ touched step.now }
{
    match step {
        Step::Fixed { link, .. } => Some(*link),
        Step::Link { link, .. } => Some(*link),
        Step::Wire { link } => Some(*link),
        Step::Send { link, .. } => Some(*link),
        Step::Pass { link, .. } => Some(*link),
        Step::Lose { link, .. } => Some(*link),
        Step::Repeat { link, .. } => Some(*link),
        Step::Alter { link, .. } => Some(*link),
        Step::Put { link, .. } => Some(*link),
        Step::Copy { to_link, .. } => Some(*to_link),
        Step::Take { link, .. } => Some(*link),
        Step::Release { link, .. } => Some(*link),
        Step::Tick { .. } => None,
        Step::Drain { link, .. } => Some(*link),
    }
}

/// A copy of the first waiting frame of an end.
fn first_copy(alloc: Global, link: &Link, side: Side) -> Result<Option<Octets>, NoMemory>
    ensures { IfOk result (λ frame. frame ≡ slice_get (waiting_frames_of_side link.now side) 0) }
{
    match link.first(side) {
        Some(frame) => Ok(Some(Octets::new(Vec::from_slice(alloc, frame)?))),
        None => Ok(None),
    }
}

/// What came in a world, its marks and its text grow with what comes.
fn world_grows()
    ensures marks { MarksGrow }
    ensures facts { FactsGrow }
    ensures lines { LinkMarksGrow }
    ensures history { HistoryGrows }
    ensures own { HistoryOfOwn }
    ensures other { HistoryOfOther }
    ensures world { WorldMarksGrow }
    ensures text { LinkText }
{
    safety_pair_laws::laws::marks_grow();
    drill_model::laws::histories();
    drill_model::laws::marks_grow();
}

impl World {
    /// A world without links, of a level and with settings; at level link-sr the window is at most half of the
    /// modulo. With `show`, each frame that is sent is printed too.
    pub fn new(
        alloc: Global,
        level: Level,
        settings: Settings,
        show: bool,
    ) -> Result<World, NoMemory>
        requires narrow { IsNarrow level settings }
        ensures ran { IfOk result (λ w. Ran w (record { level = level; settings = settings; show = show }) []) }
        ensures plan { IfOk result (λ w. w.plan ≡ record { level = level; settings = settings; show = show }) }
        ensures unspent { IfOk result (λ w. w.spent ≡ false) }
    {
        let mut places = Vec::with_capacity(alloc, PLACES)?;
        for _place in 0..PLACES {
            places.push(None)?;
        }
        Ok(World {
            level,
            settings,
            show,
            places,
            moment: Moment::new(0),
            spent: false,
        })
    }

    /// Whether a step broke off, so that nothing more can be done.
    pub fn spent(&self) -> bool
        ensures { result ≡ self.now.spent }
    {
        self.spent
    }

    /// The totals of the run so far, over all links and both ends. Each stays at 2^64 - 1.
    pub fn totals(&self) -> Totals
        requires { self.now.spent ≡ false }
        ensures { (plan : DrillPlan) (steps : List AnyStep) → Ran self.now plan steps → result ≡ totals_of (world_run plan steps).1 }
    {
        let mut totals = no_totals();
        let mut number = 1;
        while number < 65 {
            totals = sum(totals, self.totals_at(number));
            number += 1;
        }
        totals
    }

    /// The counts of link N, if it was opened.
    fn totals_at(&self, number: u8) -> Totals
        ensures { result ≡ place_totals (kept_at self.now number) }
    {
        match self.link(number) {
            Some(link) => link.totals(),
            None => no_totals(),
        }
    }

    /// Prints the closing lines, one for each link that was opened, their numbers rising. After want of memory nothing was printed.
    pub fn summary(&self, alloc: Global, out: &mut Vec<u8>) -> Result<(), NoMemory>
        requires { self.now.spent ≡ false }
        ensures ok { OnOk result ((plan : DrillPlan) (steps : List AnyStep) → Ran self.now plan steps
            → out.new.items ≡ out.old.items ++ last_lines plan steps) }
        ensures err { OnErr result (out.new.items ≡ out.old.items) }
    {
        let mut text = Vec::new(alloc);
        self.close(alloc, &mut text)?;
        out.extend_from_slice(text.as_slice())?;
        Ok(())
    }

    /// The closing lines, one after the other.
    fn close(&self, alloc: Global, text: &mut Vec<u8>) -> Result<(), NoMemory>
        ensures { OnOk result (text.new.items ≡ text.old.items ++ closing_lines self.now 1 64) }
    {
        let mut number = 1;
        while number < 65 {
            self.close_link(alloc, number, text)?;
            number += 1;
        }
        Ok(())
    }

    /// The closing line of link N, if it was opened.
    fn close_link(&self, alloc: Global, number: u8, text: &mut Vec<u8>) -> Result<(), NoMemory>
        ensures { OnOk result (text.new.items ≡ text.old.items ++ place_closing number (kept_at self.now number)) }
    {
        match self.link(number) {
            Some(link) => link.close(alloc, number, text),
            None => Ok(()),
        }
    }

    /// Link N, if it was opened.
    fn link(&self, number: u8) -> Option<&Link>
        ensures { option_map (λ l. l.now) result ≡ kept_at self.now number }
    {
        match self.places.get(number as usize) {
            Some(Some(link)) => Some(link),
            _ => None,
        }
    }

    /// The end of link N of which too many frames wait, if there is one.
    fn overfull(&self, number: u8) -> Option<Side>
        ensures { result ≡ overfull_in (kept_at self.now number) }
    {
        match self.link(number) {
            Some(link) => link.overfull(),
            None => None,
        }
    }

    /// The first link of which too many frames wait, their numbers rising, and the end.
    fn first_overfull(&self) -> Option<(u8, Side)>
        ensures { result ≡ overfull_from self.now 1 64 }
    {
        let mut number = 1;
        while number < 65 {
            if let Some(side) = self.overfull(number) {
                return Some((number, side));
            }
            number += 1;
        }
        None
    }

    /// The link, and the end, of which too many frames wait behind a step: only where the step may make frames wait.
    fn overfull_by(&self, touched: Option<u8>) -> Option<(u8, Side)>
        ensures { result ≡ overfull_by self.now touched }
    {
        match touched {
            Some(number) => match self.overfull(number) {
                Some(side) => Some((number, side)),
                None => None,
            },
            None => self.first_overfull(),
        }
    }

    /// An end of a link of this world.
    fn place(&self, number: u8, side: Side) -> Place
        ensures { result ≡ record { number = number; side = side; show = self.now.plan.show } }
    {
        Place {
            number,
            side,
            show: self.show,
        }
    }

    /// Link N is this link.
    fn open(&mut self, number: u8, link: Link)
        requires { number < 65 }
        ensures placed { self.new ≡ record self.old { links = slice_set self.old.links number (Some link) } }
        ensures inside { number < length self.old.links }
    {
        // What may lie there is let go in a call: an assignment has a prover read how each part of a link is let go.
        drop(self.places[number as usize].replace(link));
    }

    /// Opens link N with two ends that are connected under these session keys, the engine's first. Only level safe has such links.
    fn open_fixed(
        &mut self,
        alloc: Global,
        number: u8,
        engine: EtcsNumber,
        rbc: EtcsNumber,
        ke: TripleKey,
        kr: TripleKey,
        out: &mut Vec<u8>,
    ) -> Result<(), WorldFault>
        ensures does { DoesWorldStep (λ w. wants_closed number (link_at w number))
            (λ w. open_link self.old.plan w number (link_at w number) (fixed_opening self.old.plan.level engine rbc ke kr))
            self.old self.new out.old.items out.new.items result }
        ensures plan { self.new.plan ≡ self.old.plan }
        ensures spent { self.new.spent ≡ self.old.spent }
    {
        world_grows();
        if self.link(number).is_some() {
            return Err(WorldFault::LinkTwice(number));
        }
        if !is_link(number) {
            return Err(WorldFault::NoLink(number));
        }
        match self.level {
            Level::Safe => {
                let link = fixed(alloc, engine, rbc, ke, kr, self.moment);
                self.open(number, link);
                Ok(())
            }
            Level::Link => Ok(()),
            Level::LinkSr => Ok(()),
            Level::Full => Ok(()),
        }
    }

    /// Opens link N with two ends that aren't connected yet, and the engine begins the set-up. Levels link and link-sr have no such links.
    fn open_called(
        &mut self,
        alloc: Global,
        number: u8,
        engine: EtcsNumber,
        rbc: EtcsNumber,
        ke: TripleKey,
        kr: Option<TripleKey>,
        ra: u64,
        rb: u64,
        out: &mut Vec<u8>,
    ) -> Result<(), WorldFault>
        ensures does { DoesWorldStep (λ w. wants_closed number (link_at w number))
            (λ w. open_link self.old.plan w number (link_at w number) (link_opening self.old.plan.level engine rbc ke kr ra rb))
            self.old self.new out.old.items out.new.items result }
        ensures plan { self.new.plan ≡ self.old.plan }
        ensures spent { self.new.spent ≡ self.old.spent }
    {
        world_grows();
        if self.link(number).is_some() {
            return Err(WorldFault::LinkTwice(number));
        }
        if !is_link(number) {
            return Err(WorldFault::NoLink(number));
        }
        match self.level {
            Level::Safe => {
                let link = called(
                    alloc,
                    self.place(number, Side::E),
                    engine,
                    rbc,
                    ke,
                    kr,
                    ra,
                    rb,
                    self.moment,
                    out,
                )?;
                self.open(number, link);
                Ok(())
            }
            Level::Link => Ok(()),
            Level::LinkSr => Ok(()),
            Level::Full => {
                let link = stacked(
                    alloc,
                    self.place(number, Side::E),
                    &self.settings,
                    engine,
                    rbc,
                    ke,
                    kr,
                    ra,
                    rb,
                    self.moment,
                    out,
                )?;
                self.open(number, link);
                Ok(())
            }
        }
    }

    /// How the stations of a link are made, where the links of the level are of stations.
    fn stations(&self) -> Option<StationPlan>
        ensures kind { option_map (λ plan. OfStations plan.selective) result ≡ wire_opening self.now.plan.level }
        ensures settings { IfSome result (λ plan. plan.settings ≡ self.now.plan.settings) }
    {
        match self.level {
            Level::Safe => None,
            Level::Link => Some(StationPlan::new(false, self.settings)),
            Level::LinkSr => Some(StationPlan::new(true, self.settings)),
            Level::Full => None,
        }
    }

    /// Opens link N with two stations, of which the calling one begins the set-up. Only levels link and link-sr have such links.
    fn open_wire(&mut self, alloc: Global, number: u8, out: &mut Vec<u8>) -> Result<(), WorldFault>
        ensures does { DoesWorldStep (λ w. wants_closed number (link_at w number))
            (λ w. open_link self.old.plan w number (link_at w number) (wire_opening self.old.plan.level))
            self.old self.new out.old.items out.new.items result }
        ensures plan { self.new.plan ≡ self.old.plan }
        ensures spent { self.new.spent ≡ self.old.spent }
    {
        world_grows();
        if self.link(number).is_some() {
            return Err(WorldFault::LinkTwice(number));
        }
        if !is_link(number) {
            return Err(WorldFault::NoLink(number));
        }
        let Some(plan) = self.stations() else {
            return Ok(());
        };
        let place = self.place(number, Side::E);
        let link = wired(alloc, place, &plan, self.moment, out)?;
        self.open(number, link);
        Ok(())
    }

    /// A step of link N.
    fn at(
        &mut self,
        alloc: Global,
        number: u8,
        side: Side,
        action: &Action,
        out: &mut Vec<u8>,
    ) -> Result<(), WorldFault>
        ensures does { DoesWorldStep (λ w. wants number (link_at w number))
            (λ w. at_link w number (link_at w number) (action_step side action.now))
            self.old self.new out.old.items out.new.items result }
        ensures plan { self.new.plan ≡ self.old.plan }
        ensures spent { self.new.spent ≡ self.old.spent }
    {
        world_grows();
        if !is_link(number) {
            return Err(WorldFault::NoLink(number));
        }
        let place = self.place(number, side);
        let Some(link) = &mut self.places[number as usize] else {
            return Err(WorldFault::NoLink(number));
        };
        link.apply(alloc, place, action, out)?;
        Ok(())
    }

    /// Passes the frames of link N that wait.
    fn drain(
        &mut self,
        alloc: Global,
        number: u8,
        most: u32,
        out: &mut Vec<u8>,
    ) -> Result<(), WorldFault>
        ensures does { DoesWorldStep (λ w. wants number (link_at w number)) (λ w. drain_link w number most (link_at w number))
            self.old self.new out.old.items out.new.items result }
        ensures plan { self.new.plan ≡ self.old.plan }
        ensures spent { self.new.spent ≡ self.old.spent }
    {
        world_grows();
        if !is_link(number) {
            return Err(WorldFault::NoLink(number));
        }
        let show = self.show;
        let Some(link) = &mut self.places[number as usize] else {
            return Err(WorldFault::NoLink(number));
        };
        let passes = link.drain(alloc, number, show, most, out)?;
        print_passes(alloc, number, passes, out)?;
        Ok(())
    }

    /// A copy of the first waiting frame of an end becomes the first waiting frame of an end of any link.
    fn copy(
        &mut self,
        alloc: Global,
        from: Place,
        to: Place,
        out: &mut Vec<u8>,
    ) -> Result<(), WorldFault>
        ensures does { DoesWorldStep (λ w. or_else (wants from.number (link_at w from.number)) (wants to.number (link_at w to.number)))
            (λ w. copy_between w from.number from.side (link_at w from.number) to.number to.side (link_at w to.number))
            self.old self.new out.old.items out.new.items result }
        ensures plan { self.new.plan ≡ self.old.plan }
        ensures spent { self.new.spent ≡ self.old.spent }
    {
        world_grows();
        let Some(source) = self.link(from.number) else {
            return Err(WorldFault::NoLink(from.number));
        };
        if self.link(to.number).is_none() {
            return Err(WorldFault::NoLink(to.number));
        }
        let Some(frame) = first_copy(alloc, source, from.side)? else {
            print_empty(alloc, from, out)?;
            return Ok(());
        };
        let put = Action::Change(LineChange::Put(frame.as_slice()));
        self.at(alloc, to.number, to.side, &put, out)
    }

    /// Both ends of link N are ticked, if it was opened.
    fn tick_link(
        &mut self,
        alloc: Global,
        number: u8,
        moment: Moment,
        out: &mut Vec<u8>,
    ) -> Result<(), NoMemory>
        ensures went { OnOk result (WorldDoes (λ w. at_link w number (link_at w number) (Tick moment)) self.old self.new out.old.items out.new.items) }
        ensures plan { self.new.plan ≡ self.old.plan }
        ensures spent { self.new.spent ≡ self.old.spent }
    {
        world_grows();
        let show = self.show;
        if !is_link(number) {
            return Ok(());
        }
        let Some(link) = &mut self.places[number as usize] else {
            return Ok(());
        };
        link.tick(alloc, number, show, moment, out)
    }

    /// Every end is ticked, the links' numbers rising, e before r.
    fn tick_links(
        &mut self,
        alloc: Global,
        moment: Moment,
        out: &mut Vec<u8>,
    ) -> Result<(), NoMemory>
        ensures went { OnOk result (WorldDoes (λ w. tick_each_link moment w 1 64) self.old self.new out.old.items out.new.items) }
        ensures plan { self.new.plan ≡ self.old.plan }
        ensures spent { self.new.spent ≡ self.old.spent }
    {
        world_grows();
        let mut number = 1;
        while number < 65 {
            self.tick_link(alloc, number, moment, out)?;
            number += 1;
        }
        Ok(())
    }

    /// The moment is set, and every end is ticked.
    fn tick(&mut self, alloc: Global, moment: Moment, out: &mut Vec<u8>) -> Result<(), WorldFault>
        ensures does { DoesWorldStep (λ w. wants_moment w moment) (λ w. tick_world w moment) self.old self.new out.old.items out.new.items result }
        ensures plan { self.new.plan ≡ self.old.plan }
        ensures spent { self.new.spent ≡ self.old.spent }
    {
        if moment.get() < self.moment.get() {
            return Err(WorldFault::MomentBack {
                was: self.moment.get(),
                now: moment.get(),
            });
        }
        self.moment = moment;
        self.tick_links(alloc, moment, out)?;
        Ok(())
    }

    /// One step, but for the test that not too many frames wait.
    fn go(&mut self, alloc: Global, step: &Step, out: &mut Vec<u8>) -> Result<(), WorldFault>
        ensures does { DoesWorldStep (λ w. refusal_of_step w step.now) (λ w. world_step self.old.plan w step.now)
            self.old self.new out.old.items out.new.items result }
        ensures plan { self.new.plan ≡ self.old.plan }
        ensures spent { self.new.spent ≡ self.old.spent }
    {
        match step {
            Step::Fixed {
                link,
                engine,
                rbc,
                ke,
                kr,
            } => { self.open_fixed(alloc, *link, *engine, *rbc, *ke, *kr, out) }
            Step::Link {
                link,
                engine,
                rbc,
                ke,
                kr,
                ra,
                rb,
            } => { self.open_called(alloc, *link, *engine, *rbc, *ke, *kr, *ra, *rb, out) }
            Step::Wire { link } => self.open_wire(alloc, *link, out),
            Step::Send { link, side, text } => {
                self.at(alloc, *link, *side, &Action::Send(text.as_slice()), out)
            }
            Step::Pass { link, side } => self.at(alloc, *link, *side, &Action::Pass, out),
            Step::Lose { link, side } => {
                let lose = Action::Change(LineChange::Lose);
                self.at(alloc, *link, *side, &lose, out)
            }
            Step::Repeat { link, side } => {
                let repeat = Action::Change(LineChange::Repeat);
                self.at(alloc, *link, *side, &repeat, out)
            }
            Step::Alter {
                link,
                side,
                place,
                mask,
            } => {
                let alter = Action::Change(LineChange::Alter {
                    place: *place,
                    mask: *mask,
                });
                self.at(alloc, *link, *side, &alter, out)
            }
            Step::Put { link, side, text } => {
                let put = Action::Change(LineChange::Put(text.as_slice()));
                self.at(alloc, *link, *side, &put, out)
            }
            Step::Copy {
                link,
                side,
                to_link,
                to_side,
            } => {
                let from = self.place(*link, *side);
                let to = self.place(*to_link, *to_side);
                self.copy(alloc, from, to, out)
            }
            Step::Take { link, side } => self.at(alloc, *link, *side, &Action::Take, out),
            Step::Release { link, side, sub } => {
                self.at(alloc, *link, *side, &Action::Release(*sub), out)
            }
            Step::Tick { moment } => self.tick(alloc, *moment, out),
            Step::Drain { link, most } => self.drain(alloc, *link, *most, out),
        }
    }

    /// After a step that wasn't done: a refused one leaves the world as it was, and after the others it is spent.
    fn leave(&mut self, fault: WorldFault)
        ensures { self.new ≡ world_left_by_fault fault self.old }
    {
        match fault {
            WorldFault::NoLink(_) => {}
            WorldFault::LinkTwice(_) => {}
            WorldFault::MomentBack { .. } => {}
            WorldFault::Overfull { .. } => {
                self.spent = true;
            }
            WorldFault::NoMemory(_) => {
                self.spent = true;
            }
        }
    }

    /// Ends a step: tests that not too many frames wait, and prints what came of it.
    fn end(&mut self, touched: Option<u8>, text: &[u8], out: &mut Vec<u8>) -> Result<(), WorldFault>
        ensures { EndsWorldStep (overfull_by self.old touched) text.now self.old self.new out.old.items out.new.items result }
    {
        if let Some((link, side)) = self.overfull_by(touched) {
            self.spent = true;
            return Err(WorldFault::Overfull {
                link,
                side,
                most: MOST_WAITING,
            });
        }
        match out.extend_from_slice(text) {
            Ok(()) => Ok(()),
            Err(refused) => {
                self.spent = true;
                Err(WorldFault::NoMemory(NoMemory::from(refused)))
            }
        }
    }

    /// One step; what came of it is printed.
    ///
    /// A refused step, [`WorldFault::NoLink`], [`WorldFault::LinkTwice`] and [`WorldFault::MomentBack`], leaves the world as it was.
    /// After [`WorldFault::Overfull`] and want of memory the world is spent. After any fault nothing was printed.
    pub fn apply(&mut self, alloc: Global, step: &Step, out: &mut Vec<u8>) -> Result<(), WorldFault>
        requires level { IsOfLevel self.old.plan.level step.now }
        requires unspent { self.old.spent ≡ false }
        ensures ok { OnOk result ((plan : DrillPlan) (before : List AnyStep) → Ran self.old plan before
            → Applied plan before step.now self.new out.old.items out.new.items) }
        ensures fault { IfErr result (λ fault. (plan : DrillPlan) (before : List AnyStep) → Ran self.old plan before
            → IsFaultBehind plan before step.now fault) }
        ensures left { IfErr result (λ fault. LeavesIt fault self.old self.new) }
        ensures out { OnErr result (out.new.items ≡ out.old.items) }
        ensures unspent { OnOk result (self.new.spent ≡ false) }
        ensures plan { self.new.plan ≡ self.old.plan }
    {
        drill_model::laws::runs_grow();
        let mut text = Vec::new(alloc);
        match self.go(alloc, step, &mut text) {
            Ok(()) => self.end(touched(step), text.as_slice(), out),
            Err(fault) => {
                self.leave(fault);
                Err(fault)
            }
        }
    }
}
