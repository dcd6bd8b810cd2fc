//! What follows an event that was given to the end of a session: its lines are written, and what the user said follows as events.

ghost use Rattle.std.specs.Prelude.{◌≡◌, ◌≤◌, length, IfOk};
ghost use Rattle.loop_model.specs.Outs.{part_for_each_answer};
ghost use Rattle.loop_model.specs.Sessions.{Rules, Session as LoopSession, GivenToSession, Sends, Leaves, stalled, fed, replied, dealt, takes_all};
ghost use Rattle.loop_session.specs.Giving.{event_given_to_session, HasFewOctets, used_in, IsSameWith, Gave, events_said_by_user};
ghost use Rattle.loop_session.specs.Parts.{OnlyPrints, Prints, Chooses, with_mind};
ghost use Rattle.er_end.specs.KeptEnds.{KEnd};
ghost use Rattle.journal.specs.Tallies.{IsTallyOf};
ghost use Rattle.loop_session.specs.Keeping.{kept_ends};

use crate::event_lines::record_lines;
use crate::gives::Came;
use crate::hearing::hear_refused;
use crate::loop_fault::LoopFault;
use crate::scratch::Scratch;
use crate::session::Session;
use crate::session_event::SessionEvent;
use er_base::Moment;
use er_users::SafeUser;
use journal::Journal;
use safety_automaton::{KeyFinder, PairKey};

impl<U: SafeUser> Session<U> {
    // The session stalls.
    fn stall<O: Journal>(
        &mut self,
        moment: Moment,
        line: &mut Vec<u8>,
        outside: &mut O,
    ) -> Result<(), LoopFault>
        ensures prints { (r : Rules) → Prints (O.told outside.old) (O.told outside.new) self.new (stalled kept_ends r moment self.old) result }
        ensures number { self.new.number ≡ self.old.number }
        ensures only { OnlyPrints (O.told outside.old) (O.told outside.new) }
    {
        let came = self.give(&SessionEvent::Stalled, moment, line)?;
        record_lines(line.as_slice(), &came.tally(&self.end), outside)
    }

    // The lines of an event are written, and the session stalls where octets didn't fit.
    fn tell<O: Journal>(
        &mut self,
        came: Came,
        moment: Moment,
        line: &mut Vec<u8>,
        outside: &mut O,
    ) -> Result<(), LoopFault>
        requires { IsTallyOf line.old.items came.counts }
        ensures prints { (r : Rules) (s : LoopSession KEnd) (g : GivenToSession) → Gave r moment s g self.old line.old.items came
            → Prints (O.told outside.old) (O.told outside.new) self.new (with_mind self.old.mind (fed kept_ends r moment s g)) result }
        ensures number { self.new.number ≡ self.old.number }
        ensures only { OnlyPrints (O.told outside.old) (O.told outside.new) }
    {
        record_lines(line.as_slice(), &came.tally(&self.end), outside)?;
        if came.fits {
            return Ok(());
        }
        self.stall(moment, line, outside)
    }

    // The user sends a message, and hears where it is refused.
    fn send<O: Journal>(
        &mut self,
        text: &[u8],
        moment: Moment,
        line: &mut Vec<u8>,
        outside: &mut O,
    ) -> Result<(), LoopFault>
        requires { length text.now ≤ 4096 }
        ensures prints { (r : Rules) → Prints (O.told outside.old) (O.told outside.new) self.new (replied kept_ends r moment self.old (Sends text.now)) result }
        ensures number { self.new.number ≡ self.old.number }
        ensures only { OnlyPrints (O.told outside.old) (O.told outside.new) }
    {
        let came = self.give(&SessionEvent::Send(text), moment, line)?;
        hear_refused(&mut self.user, text, &came.refused);
        self.tell(came, moment, line, outside)
    }

    // The user leaves, with this sub-reason.
    fn leave<O: Journal>(
        &mut self,
        sub: u8,
        moment: Moment,
        line: &mut Vec<u8>,
        outside: &mut O,
    ) -> Result<(), LoopFault>
        ensures prints { (r : Rules) → Prints (O.told outside.old) (O.told outside.new) self.new (fed kept_ends r moment self.old (Leaves sub)) result }
        ensures number { self.new.number ≡ self.old.number }
        ensures only { OnlyPrints (O.told outside.old) (O.told outside.new) }
    {
        let came = self.give(&SessionEvent::Release(sub), moment, line)?;
        self.tell(came, moment, line, outside)
    }

    // What the user said follows as events: its texts, then its release.
    fn reply<O: Journal>(
        &mut self,
        moment: Moment,
        scratch: &mut Scratch,
        outside: &mut O,
    ) -> Result<(), LoopFault>
        ensures prints { (r : Rules) → Prints (O.told outside.old) (O.told outside.new) self.new
            (part_for_each_answer (replied kept_ends r moment) self.old (events_said_by_user scratch.old.replies)) result }
        ensures number { self.new.number ≡ self.old.number }
        ensures only { OnlyPrints (O.told outside.old) (O.told outside.new) }
    {
        for k in 0..scratch.replies.len() {
            self.send(scratch.replies.text(k), moment, &mut scratch.line, outside)?;
        }
        match scratch.replies.leaving() {
            None => Ok(()),
            Some(sub) => self.leave(sub, moment, &mut scratch.line, outside),
        }
    }

    // An event, what the user hears of it, and the replies: how many octets the end used.
    pub(crate) fn deal<K: KeyFinder, O: Journal>(
        &mut self,
        event: &SessionEvent<'_>,
        keys: &K,
        moment: Moment,
        scratch: &mut Scratch,
        outside: &mut O,
    ) -> Result<usize, LoopFault>
        requires { HasFewOctets (event_given_to_session event.now) }
        ensures chooses { (r : Rules) → IsSameWith (K.entries keys.now) r (event_given_to_session event.now)
            → Chooses (O.told outside.old) (O.told outside.new) self.new (dealt kept_ends r moment self.old (event_given_to_session event.now)) result }
        ensures used { IfOk result (λ used. used ≡ used_in self.old.end (event_given_to_session event.now)) }
        ensures number { self.new.number ≡ self.old.number }
        ensures only { OnlyPrints (O.told outside.old) (O.told outside.new) }
    {
        let came = self.give_heard(event, keys, moment, scratch)?;
        self.tell(came, moment, &mut scratch.line, outside)?;
        self.reply(moment, scratch, outside)?;
        Ok(came.used)
    }

    // The messages that wait are taken.
    pub(crate) fn take_all<O: Journal>(
        &mut self,
        moment: Moment,
        scratch: &mut Scratch,
        outside: &mut O,
    ) -> Result<(), LoopFault>
        ensures chooses { (r : Rules) → Chooses (O.told outside.old) (O.told outside.new) self.new (takes_all kept_ends r moment self.old) result }
        ensures number { self.new.number ≡ self.old.number }
        ensures only { OnlyPrints (O.told outside.old) (O.told outside.new) }
    {
        for _ in 0..self.end.waiting() {
            self.deal(
                &SessionEvent::Take,
                &None::<PairKey>,
                moment,
                scratch,
                outside,
            )?;
        }
        Ok(())
    }
}
