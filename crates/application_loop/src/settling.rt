//! What is written and closed behind what happened, and what the application says.

ghost use Rattle.outside.specs.Acts.{Called, Closed};
ghost use Rattle.outside.specs.Doings.{Did};
ghost use Rattle.application_port.specs.Ports.{NobodyThere, output_of};
ghost use Rattle.application_loop.specs.Writing.{WritesFrom, IsWrittenFrom};
ghost use Rattle.std.specs.Prelude.{◌≡◌, [], ◌∷◌};
ghost use Rattle.application_model.specs.Services.{takes_waiting};
ghost use Rattle.application_serving.specs.Going.{ServiceRun, and_then, nothing_to_do};
ghost use Rattle.application_loop.specs.Living.{Living, Resting, RestsAgain};

use crate::flow::Flow;
use crate::live_service::{APPLICATION, LiveService, front};
use crate::plan::ServicePlan;
use application_port::Port;
use journal::Journal;
use link_trait::{ReadAnswer, WriteAnswer};
use loop_session::{LoopFault, When};
use outside::Outside;
use std::alloc::Global;

// What waits for the application is written until nothing does, or there is no room, or a write fails.
#[tactic(auto, using(crate::proofs::Writes::writes_none, crate::proofs::Writes::writes_some, crate::proofs::Writes::writes_not_now, crate::proofs::Writes::writes_failed, crate::proofs::Writes::written_none, crate::proofs::Writes::written_some))]
fn write_all<O: Outside>(port: &mut Port, outside: &mut O) -> Flow
    ensures writes { WritesFrom 0 (O.told outside.old) (O.told outside.new) (output_of port.old) (output_of port.new) }
    ensures port { IsWrittenFrom port.old port.new }
{
    while !port.output().is_empty() {
        match outside.send(APPLICATION, port.output()) {
            WriteAnswer::Some(count) => port.written(count),
            WriteAnswer::NotNow => return Flow::PutOff,
            WriteAnswer::Failed => return Flow::Failing,
        }
    }
    Flow::Going
}

impl LiveService {
    // The application ended or failed.
    fn depart<O: Outside>(&mut self, outside: &mut O)
        ensures closes { Did (O.told outside.old) (O.told outside.new) (Called (Closed 0) ∷ []) }
        ensures departs { self.new ≡ record self.old { desk = record self.old.desk { port = NobodyThere } } }
    {
        outside.close(APPLICATION);
        self.desk.port.depart();
    }

    // What waits is written, and an application that can't be written to departs. The messages are left to be taken for which there is room then.
    fn write_out<O: Outside>(&mut self, outside: &mut O)
        ensures writes { (run : ServiceRun) → (output_of self.old.desk.port ≡ [] → ⊥) → Resting run (O.told outside.old) self.old
            → Living run (O.told outside.new) (and_then (λ kind s. takes_waiting kind self.old.moment s) nothing_to_do) self.new }
        ensures moment { self.new.moment ≡ self.old.moment }
        ensures links { self.new.links ≡ self.old.links }
    {
        match write_all(&mut self.desk.port, outside) {
            Flow::Going => {}
            Flow::PutOff => self.speaker.put_off = true,
            Flow::Failing => self.depart(outside),
        }
    }

    // What waits for the application is written, and the messages are taken for which there is room then.
    fn write_to_application<O: Journal>(
        &mut self,
        when: &When,
        outside: &mut O,
    ) -> Result<(), LoopFault>
        ensures rests { when.now.moment ≡ self.old.moment → RestsAgain (O.told outside.old) self.old (O.told outside.new) self.new result }
    {
        if self.speaker.put_off {
            return Ok(());
        }
        if self.desk.port.output().is_empty() {
            return Ok(());
        }
        // While there is room no message waits, so none is left for the room that comes of writing.
        let had_room = self.desk.port.has_room();
        self.write_out(outside);
        if had_room {
            return Ok(());
        }
        self.links.take_waiting(when, &mut self.desk, outside)
    }

    // One read of the application, where more may wait and nothing is held.
    fn read_application<O: Outside>(&mut self, outside: &mut O) -> Result<(), LoopFault>
        ensures rests { RestsAgain (O.told outside.old) self.old (O.told outside.new) self.new result }
    {
        if !self.speaker.unread || !self.speaker.held().is_empty() {
            return Ok(());
        }
        if !self.desk.port.has_room() {
            return Ok(());
        }
        self.speaker.unread = false;
        match outside.read(APPLICATION, &mut self.read) {
            ReadAnswer::Some(count) => self.speaker.keep(front(&self.read, count))?,
            ReadAnswer::NotNow => {}
            ReadAnswer::End | ReadAnswer::Failed => self.depart(outside),
        }
        Ok(())
    }

    // One piece of what is held is heard, up to the end of a line, which is answered. Whether there was one and room for an answer.
    #[tactic(auto, using(crate::proofs::Rooms::room_attached))]
    fn hear_piece<O: Journal>(
        &mut self,
        alloc: Global,
        plan: &ServicePlan<'_>,
        outside: &mut O,
    ) -> Result<bool, LoopFault>
        ensures rests { RestsAgain (O.told outside.old) self.old (O.told outside.new) self.new result }
    {
        if self.speaker.held().is_empty() {
            return Ok(false);
        }
        if !self.desk.port.has_room() {
            return Ok(false);
        }
        let taken = self.desk.port.hear(alloc, self.speaker.held())?;
        self.speaker.heard(taken.used);
        match taken.line {
            Some(line) => self.answer_line(alloc, line, plan, outside)?,
            None => {}
        }
        Ok(true)
    }

    // What is held is heard, line by line, while there is room for answers.
    fn hear_held<O: Journal>(
        &mut self,
        alloc: Global,
        plan: &ServicePlan<'_>,
        outside: &mut O,
    ) -> Result<(), LoopFault>
        ensures rests { RestsAgain (O.told outside.old) self.old (O.told outside.new) self.new result }
    {
        for _ in 0..self.speaker.held().len() {
            if !self.hear_piece(alloc, plan, outside)? {
                return Ok(());
            }
        }
        Ok(())
    }

    // What waits is written, what the application says is heard, and connections are closed that are to be closed at once.
    pub(crate) fn settle<O: Journal>(
        &mut self,
        alloc: Global,
        plan: &ServicePlan<'_>,
        outside: &mut O,
    ) -> Result<(), LoopFault>
        ensures rests { RestsAgain (O.told outside.old) self.old (O.told outside.new) self.new result }
    {
        let when = self.when(plan);
        self.write_to_application(&when, outside)?;
        self.hear_held(alloc, plan, outside)?;
        self.read_application(outside)?;
        self.hear_held(alloc, plan, outside)?;
        let when = self.when(plan);
        self.links.settle(&when, &mut self.desk, outside)?;
        self.write_to_application(&when, outside)
    }
}
