//! How connections are opened.

ghost use Rattle.std.specs.Prelude.{◌≡◌, true, IfOk};
ghost use Rattle.safety_automaton.specs.Pairs.{pair_entries};
ghost use Rattle.er_end_model.specs.Ends as model;
ghost use Rattle.er_end.specs.KeptEnds.{kept_opened};
ghost use Rattle.application_serving.specs.Going.{ServiceRun};
ghost use Rattle.application_loop.specs.Living.{entries_for_service, accepts_more, RestingOr};
ghost use Rattle.application_loop.specs.Turning.{IsAlike, Coming, IsDialled};

use crate::laws::{kept_ends_tell_alike, opens_calls};
use crate::link::Link;
use crate::links::MOST_LIVE;
use crate::live_service::LiveService;
use crate::plan::{ServicePlan, see_settings};
use er_base::NoMemory;
use er_end::End;
use er_trace::Event;
use journal::Journal;
use link_trait::Conn;
use loop_session::{Called, LoopFault, SessionEvent, write_event};
use outside::Outside;
use safety_automaton::PairKey;
use std::alloc::Global;

impl LiveService {
    // A connection gets no end, since as many as can be are live, or there is no memory for one: its event, and it is closed.
    fn turn_away<O: Journal>(&mut self, number: u64, outside: &mut O) -> Result<(), LoopFault>
        ensures opens { (run : ServiceRun) → Coming run (O.told outside.old) self.old number → accepts_more self.old.draining self.old.calls ≡ true
            → RestingOr run (O.told outside.new) self.new result }
    {
        let event = Event::Full(self.links.len() as u64);
        write_event(self.moment, number, event, &mut self.scratch, outside)?;
        self.desk.count_opened();
        outside.close(Conn(number));
        Ok(())
    }

    // An end that answers, with this random word.
    fn answering_end(
        &mut self,
        alloc: Global,
        ra: u64,
        plan: &ServicePlan<'_>,
    ) -> Result<Box<End>, NoMemory>
        ensures end { IfOk result (λ end. end.value ≡ kept_opened (model.Answer plan.now.settings plan.now.rbc ra self.old.moment)) }
        ensures only { IsAlike self.old self.new }
    {
        let end = End::answer(alloc, &plan.settings, plan.rbc, ra, self.moment)?;
        self.links.placed(alloc, end)
    }

    // A connection gets an end that answers, with this random word. Where there is no memory for one, that connection alone is turned away.
    fn answer<O: Journal>(
        &mut self,
        alloc: Global,
        number: u64,
        ra: u64,
        plan: &ServicePlan<'_>,
        outside: &mut O,
    ) -> Result<(), LoopFault>
        ensures opens { (run : ServiceRun) → run.settings ≡ plan.now.settings → Coming run (O.told outside.old) self.old number
            → accepts_more self.old.draining self.old.calls ≡ true → RestingOr run (O.told outside.new) self.new result }
    {
        kept_ends_tell_alike();
        see_settings(&plan.settings);
        let Ok(end) = self.answering_end(alloc, ra, plan) else {
            return self.turn_away(number, outside);
        };
        let event = Event::Answer { rbc: plan.rbc, ra };
        write_event(self.moment, number, event, &mut self.scratch, outside)?;
        self.desk.count_opened();
        self.links.add(Link::new(alloc, number, end))?;
        Ok(())
    }

    // A connection was accepted. One that comes while nothing more is accepted, or to a loop that calls, is closed without a line.
    pub(crate) fn accept<O: Journal>(
        &mut self,
        alloc: Global,
        conn: Conn,
        plan: &ServicePlan<'_>,
        outside: &mut O,
    ) -> Result<(), LoopFault>
        ensures opens { (run : ServiceRun) → run.settings ≡ plan.now.settings → Coming run (O.told outside.old) self.old conn.0
            → RestingOr run (O.told outside.new) self.new result }
    {
        if self.draining || self.calls {
            outside.close(conn);
            return Ok(());
        }
        if self.links.len() >= MOST_LIVE {
            return self.turn_away(conn.0, outside);
        }
        let ra = outside.word();
        self.answer(alloc, conn.0, ra, plan, outside)
    }

    // An end that calls, with the key of this pair and this random word.
    fn calling_end(
        &mut self,
        alloc: Global,
        rb: u64,
        pair: &PairKey,
        plan: &ServicePlan<'_>,
    ) -> Result<Box<End>, NoMemory>
        ensures end { IfOk result (λ end. end.value ≡ kept_opened (model.Call plan.now.settings pair.now.engine pair.now.rbc pair.now.kmac rb self.old.moment)) }
        ensures only { IsAlike self.old self.new }
    {
        let end = End::call(
            alloc,
            &plan.settings,
            pair.engine(),
            pair.rbc(),
            pair.kmac().copied(),
            rb,
            self.moment,
        )?;
        self.links.placed(alloc, end)
    }

    // The one connection of a call was opened: its end calls.
    pub(crate) fn call<O: Journal>(
        &mut self,
        alloc: Global,
        number: u64,
        pair: &PairKey,
        plan: &ServicePlan<'_>,
        outside: &mut O,
    ) -> Result<(), LoopFault>
        ensures calls { (run : ServiceRun) → run.settings ≡ plan.now.settings → entries_for_service self.old.keys ≡ pair_entries pair.now
            → IsDialled run (O.told outside.old) self.old number → RestingOr run (O.told outside.new) self.new result }
    {
        opens_calls();
        see_settings(&plan.settings);
        self.see_moment(outside);
        let rb = outside.word();
        let end = self.calling_end(alloc, rb, pair, plan)?;
        // A moment is one of 64 bits, at which the key of a pair holds.
        let _at = self.moment.get();
        let mut link = Link::new(alloc, number, end);
        let called = Called {
            engine: pair.engine(),
            rbc: pair.rbc(),
            rb,
        };
        let when = self.when(plan);
        let event = SessionEvent::Call(&called);
        link.occur(&event, &None::<PairKey>, &when, &mut self.desk, outside)?;
        self.desk.count_opened();
        self.links.add(link)?;
        self.links.take_waiting(&when, &mut self.desk, outside)?;
        self.settle(alloc, plan, outside)
    }
}
