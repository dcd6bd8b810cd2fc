//! One end of a link, and the frames of it that wait.

ghost use Rattle.std.specs.Prelude.{◌≡◌, ◌<◌, ◌^◌, List, [], IfOk, OnOk};
ghost use Rattle.safety_automaton.specs.Keys.{key_at};
ghost use Rattle.safety_pair_laws.specs.Facts.{MarkedFact};
ghost use Rattle.drill_model.specs.Ends.{EndAtLevel, end_step};
ghost use Rattle.drill_model.specs.Waiting.{change_first};
ghost use Rattle.er_world.specs.Changes.{IsFirstWaitingFrame, change_of, outcomes_of_line_change};
ghost use Rattle.drill_ends.specs.Events.{event_of};
ghost use Rattle.drill_ends.specs.KeptEnds.{StandsEnd};
ghost use Rattle.er_world.specs.Ledgers.{HoldsLedger};
ghost use Rattle.er_world.specs.Ports.{PortWent};

use crate::action::LineChange;
use crate::counts::count_told;
use crate::ledger::Ledger;
use crate::place::Place;
use crate::waiting::{Change, Waiting};
use drill_ends::{DrillEnd, EndEvent, OneKey};
use drill_model::Totals;
use er_base::{Moment, NoMemory, Octets};
use std::alloc::Global;

/// An end of a link, and the frames of it that wait.
#[derive(Drop)]
pub struct Port {
    end: DrillEnd,
    waiting: Waiting,
}

impl Port {
    /// An end of which no frame waits.
    pub fn new(alloc: Global, end: DrillEnd) -> Port
        ensures { result ≡ record { end = end; waiting = [] } }
    {
        Port {
            end,
            waiting: Waiting::new(alloc),
        }
    }

    /// The frames that wait.
    pub fn waiting(&self) -> &Waiting
        ensures { result.now ≡ self.now.waiting }
    {
        &self.waiting
    }

    /// Takes the first frame that waits.
    pub fn take_first(&mut self) -> Option<Octets>
        ensures end { self.new.end ≡ self.old.end }
        ensures waiting { IsFirstWaitingFrame self.old.waiting result self.new.waiting }
    {
        self.waiting.take_first()
    }

    /// The line changes what waits of this end.
    pub fn change(&mut self, alloc: Global, how: &LineChange) -> Result<Change, NoMemory>
        ensures end { self.new.end ≡ self.old.end }
        ensures waiting { IfOk result (λ change. change_first (change_of how.now) self.old.waiting ≡ (self.new.waiting, outcomes_of_line_change change)) }
    {
        self.waiting.change(alloc, how)
    }

    /// An event at this end, at a moment: what the end does is counted, marked, printed, kept and queued.
    pub fn answer(
        &mut self,
        alloc: Global,
        place: Place,
        keys: &OneKey,
        now: Moment,
        event: &EndEvent,
        ledger: &mut Ledger,
        totals: &mut Totals,
        out: &mut Vec<u8>,
    ) -> Result<(), NoMemory>
        ensures bound { now < 2 ^ 64 }
        ensures went { OnOk result ((end : EndAtLevel) (facts : List MarkedFact) → StandsEnd self.old.end end → HoldsLedger ledger.old facts
            → PortWent place facts (event_of event.now) (end_step (key_at keys.now now) now end (event_of event.now)) self.old.waiting self.new ledger.new
            totals.old totals.new out.old.items out.new.items) }
    {
        drill_ends::laws::sends();
        let _ = now.get();
        let told = self.end.answer(alloc, keys, now, event)?;
        count_told(event, &told, totals);
        ledger.tell_all(alloc, place, told, &mut self.waiting, out)
    }
}
