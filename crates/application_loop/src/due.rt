//! What comes by the clock.

ghost use Rattle.application_loop.specs.Living.{RestsAgain};

use crate::live_service::LiveService;
use crate::plan::ServicePlan;
use journal::Journal;
use loop_session::LoopFault;
use std::alloc::Global;

impl LiveService {
    // Whether the deadline of an end, or the closing moment of a connection, has come.
    fn is_due(&self) -> bool {
        match self.links.until() {
            Some(until) => until <= self.moment.get(),
            None => false,
        }
    }

    // Before a turn: the ends whose deadline has come are ticked, then the connections whose closing moment has come are closed.
    pub(crate) fn do_due<O: Journal>(
        &mut self,
        alloc: Global,
        plan: &ServicePlan<'_>,
        outside: &mut O,
    ) -> Result<(), LoopFault>
        ensures rests { RestsAgain (O.told outside.old) self.old (O.told outside.new) self.new result }
    {
        if !self.is_due() {
            return Ok(());
        }
        let when = self.when(plan);
        self.links.tick(&when, &mut self.desk, outside)?;
        self.links.close_expired(self.moment, outside);
        self.settle(alloc, plan, outside)
    }
}
