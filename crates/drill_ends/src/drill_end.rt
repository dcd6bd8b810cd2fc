//! An end of a link, by its level.

ghost use Rattle.std.specs.Prelude.{IfOk};
ghost use Rattle.safety_automaton.specs.Keys.{key_at};
ghost use Rattle.drill_model.specs.Ends.{EndAtLevel as AnyEnd, end_step};
ghost use Rattle.drill_ends.specs.Events.{event_of};
ghost use Rattle.drill_ends.specs.KeptEnds.{StandsEnd, EndWent};

use crate::end_event::EndEvent;
use crate::finder::OneKey;
use crate::safe_end::safe_answer;
use crate::stack_end::stack_answer;
use crate::station_end::StationEnd;
use crate::told::Told;
use er_base::{Moment, NoMemory};
use er_end::End;
use safety_automaton::Safe;
use std::alloc::Global;
use std::collections::VecDeque;

/// An end of a link.
#[derive(Drop)]
pub enum DrillEnd {
    /// Level safe.
    Safe(Safe),
    /// Levels link and link-sr.
    Station(StationEnd),
    /// Level full.
    Stack(End),
}

impl DrillEnd {
    /// An event at this end, at a moment; answers what the end did, in its order.
    pub fn answer(
        &mut self,
        alloc: Global,
        keys: &OneKey,
        now: Moment,
        event: &EndEvent,
    ) -> Result<VecDeque<Told>, NoMemory>
        ensures { IfOk result (λ told. (end : AnyEnd) → StandsEnd self.old end
            → EndWent self.new told.items (end_step (key_at keys.now now) now end (event_of event.now))) }
    {
        match self {
            DrillEnd::Safe(safe) => safe_answer(alloc, safe, keys, now, event),
            DrillEnd::Station(station) => station.answer(alloc, now, event),
            DrillEnd::Stack(end) => stack_answer(alloc, end, keys, now, event),
        }
    }
}
