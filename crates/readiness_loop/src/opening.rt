//! The opening of the one connection of a dial.

ghost use Rattle.std.specs.Prelude.{◌≡◌, ◌≤◌, ◌==◌, if◌then◌else◌, true, false, length, IfOk, OnOk};
ghost use Rattle.rand_core.specs.Stream.{next_u64};
ghost use Rattle.loop_model.specs.Loops.{begun_dial};
ghost use Rattle.loop_io.specs.Visiting.{DoesOn, Keep};
ghost use Rattle.readiness_loop.specs.Lives.{sessions_in, IsSeated, HasAllWakeTimes, HasFirstConnection, KeepsLoopMomentAndTurns, LeavesTurns, dialled_call_outcome, pair_plan, pair_caller, OpensOn};

use crate::live_loop::{LiveLoop, moment_of};
use crate::loop_plan::{LoopPlan, see_settings};
use er_base::NoMemory;
use er_end::End;
use er_trace::Event;
use er_users::SafeUser;
use journal::Journal;
use link_trait::Conn;
use loop_io::begin_call;
use loop_session::{Called, LoopFault, Session, When};
use safety_automaton::PairKey;
use std::alloc::Global;

// The session of the one connection, with this end and this user.
fn begun_session<U: SafeUser>(
    alloc: Global,
    number: u64,
    end: End,
    user: U,
) -> Result<Session<U>, NoMemory>
    ensures { IfOk result (λ session. session ≡ begun_dial number end (U.mind user)) }
{
    let end = Box::new(alloc, end)?;
    Ok(Session::begin_dial(alloc, number, end, user))
}

impl<U: SafeUser> LiveLoop<U> {
    // The connection gets a session, whose end calls, with this user and the next random word. Whether it stays.
    #[tactic(auto, using(crate::proofs::Quiets::leaves_word, crate::proofs::Quiets::leaves_drawn))]
    fn call<O: Journal>(
        &mut self,
        alloc: Global,
        conn: Conn,
        user: U,
        pair: &PairKey,
        plan: &LoopPlan,
        outside: &mut O,
    ) -> Result<bool, LoopFault>
        requires awaited { HasAllWakeTimes self.old.book }
        requires first { HasFirstConnection (O.told outside.old).wires.opened conn.0 self.old }
        ensures does { DoesOn (O.told outside.old) (O.told outside.new) (sessions_in self.new.book)
            (dialled_call_outcome pair.now plan.now (O.told outside.old).words self.old.moment conn.0 (U.mind user)) result }
        ensures stays { IfOk result (λ stays. (length self.new.book.places.entries == 0) ≡ (if stays then false else true)) }
        ensures seated { OnOk result (IsSeated (O.told outside.new).wires.opened self.new.book) }
        ensures awaited { OnOk result (HasAllWakeTimes self.new.book) }
        ensures stream { OnOk result ((O.told outside.new).words ≡ (next_u64 (O.told outside.old).words).1) }
        ensures users { self.new.users ≡ self.old.users }
        ensures rests { KeepsLoopMomentAndTurns self.old self.new }
        ensures leaves { LeavesTurns (O.told outside.old) (O.told outside.new) }
    {
        see_settings(&plan.settings);
        let rb = outside.word();
        let (engine, rbc) = (pair.engine(), plan.rbc);
        let end = End::call(
            alloc,
            &plan.settings,
            engine,
            rbc,
            pair.kmac().copied(),
            rb,
            self.moment,
        )?;
        let mut session = begun_session(alloc, conn.0, end, user)?;
        let call = Called { engine, rbc, rb };
        let when = When::of(self.moment, &plan.settings);
        let stays = begin_call(
            &mut session,
            &call,
            pair,
            &when,
            &mut self.workspace.scratch,
            outside,
        )?;
        if !stays {
            return Ok(false);
        }
        self.book.add(session)?;
        Ok(true)
    }

    // The one connection of a dial was opened: its session begins, or it is closed. Whether it stays.
    pub(crate) fn open<O: Journal>(
        &mut self,
        alloc: Global,
        conn: Conn,
        pair: &PairKey,
        plan: &LoopPlan,
        outside: &mut O,
    ) -> Result<bool, LoopFault>
        requires dials { plan.now.dials ≡ true }
        requires awaited { HasAllWakeTimes self.old.book }
        requires first { HasFirstConnection (O.told outside.old).wires.opened conn.0 self.old }
        ensures does { OpensOn U.SafeUser (pair_plan pair.now plan.now) (pair_caller pair.now) conn.0 self.old self.new
            (O.told outside.old) (O.told outside.new) result }
        ensures seated { OnOk result (IsSeated (O.told outside.new).wires.opened self.new.book) }
        ensures awaited { OnOk result (HasAllWakeTimes self.new.book) }
        ensures turns { self.new.turns ≡ self.old.turns }
    {
        self.moment = self.moment.later(moment_of(outside));
        match self.users.pop() {
            Some(user) => self.call(alloc, conn, user, pair, plan, outside),
            None => {
                self.turn_away(conn, Event::Unserved(0), outside)?;
                Ok(false)
            }
        }
    }
}
