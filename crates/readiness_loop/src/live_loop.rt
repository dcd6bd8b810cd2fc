//! A loop with its sessions, turn by turn.

ghost use Rattle.std.specs.Prelude.{◌≡◌, ◌≤◌, ◌<◌, ◌+◌, ◌++◌, ◌-◌, ◌^◌, ◌&&◌, ◌==◌, if◌then◌else◌, List, [], ◌∷◌, length, vec_len, map, IfOk, OnOk, OnErr, Option, None, Some};
ghost use Rattle.safety_automaton.specs.Keys as keys;
ghost use Rattle.outside.specs.Acts.{Asked};
ghost use Rattle.outside.specs.Doings.{Did};
ghost use Rattle.er_trace.specs.Ranges.{IsInRange};
ghost use Rattle.er_end_model.specs.Ends.{Answer as AnswersWith};
ghost use Rattle.er_end.specs.KeptEnds.{KEnd, kept_opened};
ghost use Rattle.loop_model.specs.Grammar.{IsInGrammar};
ghost use Rattle.loop_model.specs.Visits.{is_due};
ghost use Rattle.loop_model.specs.Loops.{Loop, before, until, until as first, turned_away, accepted, happened, Halt, OnClosed};
ghost use Rattle.loop_session.specs.Keeping.{kept_ends};
ghost use Rattle.loop_session.specs.Parts.{rules_of_session, writes_of_entries, OnlyPrints, Puts};
ghost use Rattle.loop_io.specs.Visiting.{DoesOn, Keep};
ghost use Rattle.readiness_loop.specs.Courses.{plan_of_loop, answer_event, answer_of_next_user, IsReadyFor, halt_after, HaltsSo};
ghost use Rattle.readiness_loop.specs.Lives.{sessions_in, IsSeated, HasAllWakeTimes, loop_at, ActsOn, IsBookInOrder, TakesSeat, KeepsLoopMomentAndTurns, LeavesTurns, TurnedOn, TurnsOn, RunsOn};

use crate::book::{Book, MOST_LIVE};
use crate::line_plan::{LoopStop, Served};
use crate::loop_plan::{LoopPlan, see_settings};
use er_base::{EtcsNumber, Moment, NoMemory};
use er_end::End;
use er_trace::Event;
use er_users::SafeUser;
use journal::Journal;
use link_trait::{Conn, Happening};
use loop_io::{Visit, Workspace};
use loop_session::{LoopFault, When, write_event};
use outside::Outside;
use safety_automaton::KeyFinder;
use std::alloc::Global;

// Whether a loop goes on behind a turn.
#[derive(Clone, Copy, Debug, PartialEq, Eq)]
pub(crate) enum Next {
    GoesOn,
    // The wires ended.
    Ended,
    // The one connection of a dial was closed.
    Closed,
}

// A loop: its sessions, and what is left for those that come.
#[derive(Drop)]
pub(crate) struct LiveLoop<U: SafeUser> {
    pub(crate) book: Book<U>,
    // The users that are left; the last of them comes next.
    pub(crate) users: Vec<U>,
    // The greatest moment that the clock gave.
    pub(crate) moment: Moment,
    // The turns that were done.
    pub(crate) turns: u64,
    // Room for the numbers of the sessions that are visited in a row.
    pub(crate) numbers: Vec<u64>,
    pub(crate) workspace: Workspace,
}

// Whether a moment is there and has come.
fn has_come(at: Option<u64>, moment: Moment) -> bool
    ensures { result ≡ is_due moment at }
{
    match at {
        Some(at) => at <= moment.get(),
        None => false,
    }
}

// The moment that the clock answers.
pub(crate) fn moment_of<O: Outside>(outside: &mut O) -> Moment
    ensures asks { Did (O.told outside.old) (O.told outside.new) (Asked result ∷ []) }
    ensures most { result ≤ 1000000000000000 }
{
    Moment::new(outside.moment())
}

// A count has 64 bits, by its type: this call does nothing.
fn see_count(count: u64)
    ensures { count < 2 ^ 64 }
{}

// An ETCS number has three octets, by its type: this call does nothing.
fn see_number(number: EtcsNumber)
    ensures { number < 2 ^ 24 }
{}

// What follows a happening.
fn next_behind(happening: Happening, has_closed: bool) -> Result<Next, LoopFault>
    ensures { (why : Option Halt) → why ≡ (if has_closed then Some OnClosed else None) → HaltsSo result (halt_after happening why) }
{
    match happening {
        Happening::Ended => Ok(Next::Ended),
        Happening::Failed => Err(LoopFault::Wires),
        _ => {
            if has_closed {
                Ok(Next::Closed)
            } else {
                Ok(Next::GoesOn)
            }
        }
    }
}

// An end that answers, on the heap, where it stays.
fn answering_end(
    alloc: Global,
    plan: &LoopPlan,
    ra: u64,
    now: Moment,
    workspace: &mut Workspace,
) -> Result<Box<End>, NoMemory>
    ensures { IfOk result (λ end. end.value ≡ kept_opened (AnswersWith plan.now.settings plan.now.rbc ra now)) }
{
    see_settings(&plan.settings);
    let end = End::answer(alloc, &plan.settings, plan.rbc, ra, now)?;
    match workspace.take_place() {
        Some(mut place) => {
            *place = end;
            Ok(place)
        }
        None => Ok(Box::new(alloc, end)?),
    }
}

impl<U: SafeUser> LiveLoop<U> {
    // A loop with no session.
    pub(crate) fn new(alloc: Global, users: Vec<U>) -> Result<LiveLoop<U>, NoMemory>
        ensures empty { IfOk result (λ live. live.book.places.entries ≡ []) }
        ensures awaited { IfOk result (λ live. HasAllWakeTimes live.book) }
        ensures users { IfOk result (λ live. live.users ≡ users) }
        ensures moment { IfOk result (λ live. live.moment ≡ 0) }
        ensures turns { IfOk result (λ live. live.turns ≡ 0) }
    {
        Ok(LiveLoop {
            book: Book::new(alloc)?,
            users,
            moment: Moment::new(0),
            turns: 0,
            numbers: Vec::with_capacity(alloc, MOST_LIVE)?,
            workspace: Workspace::new(alloc, MOST_LIVE)?,
        })
    }

    // Before a turn: the sessions whose deadline has come are ticked, then those whose closing moment has come are closed. The first moment
    // at which one of those that are left is to be visited.
    #[tactic(auto, using(crate::proofs::Befores::before_did, crate::proofs::Befores::before_breaks_first, crate::proofs::Befores::before_breaks_then, crate::proofs::Befores::nobody_due, crate::proofs::Quiets::keeps_all, crate::proofs::Quiets::keeps_then))]
    fn before<K: KeyFinder, O: Journal>(
        &mut self,
        keys: &K,
        plan: &LoopPlan,
        outside: &mut O,
    ) -> Result<Option<u64>, LoopFault>
        requires { IsBookInOrder (O.told outside.old).wires.opened self.old.book }
        ensures does { DoesOn (O.told outside.old) (O.told outside.new) (sessions_in self.new.book)
            (before kept_ends (rules_of_session (K.entries keys.now) plan.now.settings.setup) self.old.moment (sessions_in self.old.book)) result }
        ensures until { IfOk result (λ first. first ≡ until kept_ends (sessions_in self.new.book)) }
        ensures seated { OnOk result (IsSeated (O.told outside.new).wires.opened self.new.book) }
        ensures awaited { OnOk result (HasAllWakeTimes self.new.book) }
        ensures users { self.new.users ≡ self.old.users }
        ensures rests { KeepsLoopMomentAndTurns self.old self.new }
        ensures keep { Keep (O.told outside.old) (O.told outside.new) }
    {
        let first = self.book.until();
        if !has_come(first, self.moment) {
            return Ok(first);
        }
        let when = When::of(self.moment, &plan.settings);
        let book = &mut self.book;
        book.sweep(
            Visit::Tick,
            &mut self.numbers,
            keys,
            &when,
            &mut self.workspace,
            outside,
        )?;
        book.sweep(
            Visit::Expire,
            &mut self.numbers,
            keys,
            &when,
            &mut self.workspace,
            outside,
        )?;
        Ok(self.book.until())
    }

    // A connection gets no session: its event, and it is closed.
    #[tactic(auto, using(crate::proofs::Acceptings::away_breaks, crate::proofs::Acceptings::away_acted, crate::proofs::Quiets::keeps_printed, crate::proofs::Quiets::keeps_away))]
    pub(crate) fn turn_away<O: Journal>(
        &mut self,
        conn: Conn,
        why: Event,
        outside: &mut O,
    ) -> Result<(), LoopFault>
        requires { IsInRange why }
        ensures does { (l : Loop KEnd) → l.moment ≡ self.old.moment → ActsOn (O.told outside.old) (O.told outside.new) l (turned_away l conn.0 why) result }
        ensures book { self.new.book ≡ self.old.book }
        ensures users { self.new.users ≡ self.old.users }
        ensures rests { KeepsLoopMomentAndTurns self.old self.new }
        ensures keep { Keep (O.told outside.old) (O.told outside.new) }
    {
        write_event(
            self.moment,
            conn.0,
            why,
            &mut self.workspace.scratch,
            outside,
        )?;
        outside.close(conn);
        Ok(())
    }

    // A connection gets a session, with the user that comes next and this random word. Where there is no memory for it, nothing changed.
    fn seat(&mut self, alloc: Global, number: u64, ra: u64, plan: &LoopPlan) -> Result<(), NoMemory>
        requires order { IsBookInOrder (number - 1) self.old.book }
        requires number { 0 < number }
        requires users { 0 < vec_len self.old.users }
        ensures seats { OnOk result (TakesSeat self.old.book self.new.book (map U.mind self.old.users.items) (map U.mind self.new.users.items) number
            (kept_opened (AnswersWith plan.now.settings plan.now.rbc ra self.old.moment))) }
        ensures sessions { OnErr result (sessions_in self.new.book ≡ sessions_in self.old.book) }
        ensures users { OnErr result (self.new.users ≡ self.old.users) }
        ensures seated { IsSeated number self.new.book }
        ensures awaited { HasAllWakeTimes self.new.book }
        ensures rests { KeepsLoopMomentAndTurns self.old self.new }
    {
        let end = answering_end(alloc, plan, ra, self.moment, &mut self.workspace)?;
        self.book.seat(alloc, number, end, &mut self.users)
    }

    // The line of a connection that got a session.
    fn tell_answer<O: Journal>(
        &mut self,
        conn: Conn,
        ra: u64,
        plan: &LoopPlan,
        outside: &mut O,
    ) -> Result<(), LoopFault>
        ensures puts { Puts (O.told outside.old) (O.told outside.new) (writes_of_entries (answer_event ra plan.now.rbc self.old.moment conn.0 ∷ [])) result }
        ensures grammar { OnOk result (IsInGrammar (answer_event ra plan.now.rbc self.old.moment conn.0)) }
        ensures book { self.new.book ≡ self.old.book }
        ensures users { self.new.users ≡ self.old.users }
        ensures rests { KeepsLoopMomentAndTurns self.old self.new }
        ensures only { OnlyPrints (O.told outside.old) (O.told outside.new) }
    {
        see_number(plan.rbc);
        let event = Event::Answer { rbc: plan.rbc, ra };
        write_event(
            self.moment,
            conn.0,
            event,
            &mut self.workspace.scratch,
            outside,
        )
    }

    // A connection was accepted that finds a user: it gets a session, or is turned away where there is no memory for one.
    fn answer<O: Journal>(
        &mut self,
        alloc: Global,
        conn: Conn,
        plan: &LoopPlan,
        outside: &mut O,
    ) -> Result<(), LoopFault>
        requires order { IsBookInOrder (conn.0 - 1) self.old.book }
        requires number { 0 < conn.0 }
        requires users { 0 < vec_len self.old.users }
        ensures does { (entries : List keys.KmacEntry) → DoesOn (O.told outside.old) (O.told outside.new) (loop_at U.SafeUser self.new (O.told outside.new))
            (answer_of_next_user (plan_of_loop entries plan.now) (loop_at U.SafeUser self.old (O.told outside.old)) conn.0) result }
        ensures seated { IsSeated conn.0 self.new.book }
        ensures awaited { HasAllWakeTimes self.new.book }
        ensures rests { KeepsLoopMomentAndTurns self.old self.new }
        ensures leaves { LeavesTurns (O.told outside.old) (O.told outside.new) }
    {
        let ra = outside.word();
        match self.seat(alloc, conn.0, ra, plan) {
            Ok(()) => self.tell_answer(conn, ra, plan, outside),
            Err(_want) => {
                let live = self.book.len() as u64;
                self.turn_away(conn, Event::Full(live), outside)
            }
        }
    }

    // A connection was accepted.
    #[tactic(auto, using(crate::proofs::Quiets::leaves_kept, crate::proofs::Quiets::leaves_drawn))]
    fn accept<O: Journal>(
        &mut self,
        alloc: Global,
        conn: Conn,
        plan: &LoopPlan,
        outside: &mut O,
    ) -> Result<(), LoopFault>
        requires order { IsBookInOrder (conn.0 - 1) self.old.book }
        requires number { 0 < conn.0 }
        ensures does { (entries : List keys.KmacEntry) → DoesOn (O.told outside.old) (O.told outside.new) (loop_at U.SafeUser self.new (O.told outside.new))
            (accepted kept_ends (plan_of_loop entries plan.now) (loop_at U.SafeUser self.old (O.told outside.old)) conn.0) result }
        ensures seated { IsSeated conn.0 self.new.book }
        ensures awaited { HasAllWakeTimes self.new.book }
        ensures rests { KeepsLoopMomentAndTurns self.old self.new }
        ensures leaves { LeavesTurns (O.told outside.old) (O.told outside.new) }
    {
        if self.book.len() >= MOST_LIVE {
            return self.turn_away(conn, Event::Full(MOST_LIVE as u64), outside);
        }
        if self.users.is_empty() {
            see_count(plan.handed);
            return self.turn_away(conn, Event::Unserved(plan.handed), outside);
        }
        self.answer(alloc, conn, plan, outside)
    }

    // What happened is handled whole.
    #[tactic(auto, using(crate::proofs::Turning::react_accept, crate::proofs::Turning::react_read, crate::proofs::Turning::react_write, crate::proofs::Turning::react_quiet, crate::proofs::Turning::react_ended, crate::proofs::Turning::react_failed, crate::proofs::Quiets::leaves_kept, crate::proofs::Quiets::leaves_all))]
    fn react<K: KeyFinder, O: Journal>(
        &mut self,
        alloc: Global,
        happening: Happening,
        keys: &K,
        plan: &LoopPlan,
        outside: &mut O,
    ) -> Result<(), LoopFault>
        requires awaited { HasAllWakeTimes self.old.book }
        requires ready { IsReadyFor happening (O.told outside.old).wires.opened self.old.book.slots self.old.book.places.entries }
        ensures does { DoesOn (O.told outside.old) (O.told outside.new) (loop_at U.SafeUser self.new (O.told outside.new))
            (happened kept_ends (plan_of_loop (K.entries keys.now) plan.now) (loop_at U.SafeUser self.old (O.told outside.old)) happening) result }
        ensures seated { OnOk result (IsSeated (O.told outside.new).wires.opened self.new.book) }
        ensures awaited { OnOk result (HasAllWakeTimes self.new.book) }
        ensures rests { KeepsLoopMomentAndTurns self.old self.new }
        ensures leaves { LeavesTurns (O.told outside.old) (O.told outside.new) }
    {
        let when = When::of(self.moment, &plan.settings);
        match happening {
            Happening::Accepted(conn) => self.accept(alloc, conn, plan, outside),
            Happening::Readable(conn) => {
                let book = &mut self.book;
                book.visit(
                    conn.0,
                    Visit::Read,
                    keys,
                    &when,
                    &mut self.workspace,
                    outside,
                )
            }
            Happening::Writable(conn) => {
                let book = &mut self.book;
                book.visit(
                    conn.0,
                    Visit::Write,
                    keys,
                    &when,
                    &mut self.workspace,
                    outside,
                )
            }
            Happening::Quiet => Ok(()),
            Happening::Ended => Ok(()),
            Happening::Failed => Ok(()),
        }
    }

    // Whether the one connection of a dial was closed.
    fn has_closed(&self, plan: &LoopPlan) -> bool
        ensures { result ≡ (plan.now.dials && (length self.now.book.places.entries == 0)) }
    {
        plan.dials && self.book.len() == 0
    }

    // The turn, and what follows it.
    fn turn<K: KeyFinder, O: Journal>(
        &mut self,
        alloc: Global,
        until: Option<u64>,
        keys: &K,
        plan: &LoopPlan,
        outside: &mut O,
    ) -> Result<Next, LoopFault>
        requires order { IsBookInOrder (O.told outside.old).wires.opened self.old.book }
        requires turns { self.old.turns < 2 ^ 64 - 1 }
        requires until { until ≡ first kept_ends (sessions_in self.old.book) }
        ensures does { TurnedOn U.SafeUser (plan_of_loop (K.entries keys.now) plan.now) self.old self.new (O.told outside.old) (O.told outside.new) result }
        ensures order { OnOk result (IsBookInOrder (O.told outside.new).wires.opened self.new.book) }
        ensures turns { self.new.turns ≤ self.old.turns + 1 }
    {
        let happening = outside.turn(until);
        self.moment = self.moment.later(moment_of(outside));
        self.turns += 1;
        self.react(alloc, happening, keys, plan, outside)?;
        next_behind(happening, self.has_closed(plan))
    }

    // One turn, with what comes before and behind it.
    fn go<K: KeyFinder, O: Journal>(
        &mut self,
        alloc: Global,
        keys: &K,
        plan: &LoopPlan,
        outside: &mut O,
    ) -> Result<Next, LoopFault>
        requires order { IsBookInOrder (O.told outside.old).wires.opened self.old.book }
        requires turns { self.old.turns < 2 ^ 64 - 1 }
        ensures does { TurnsOn U.SafeUser (plan_of_loop (K.entries keys.now) plan.now) self.old self.new (O.told outside.old) (O.told outside.new) result }
        ensures order { OnOk result (IsBookInOrder (O.told outside.new).wires.opened self.new.book) }
        ensures turns { self.new.turns ≤ self.old.turns + 1 }
    {
        self.moment = self.moment.later(moment_of(outside));
        let until = self.before(keys, plan, outside)?;
        if self.has_closed(plan) {
            return Ok(Next::Closed);
        }
        self.turn(alloc, until, keys, plan, outside)
    }

    // All turns of the plan, unless the loop stops before.
    pub(crate) fn run<K: KeyFinder, O: Journal>(
        &mut self,
        alloc: Global,
        keys: &K,
        plan: &LoopPlan,
        outside: &mut O,
    ) -> Result<Served, LoopFault>
        requires order { IsBookInOrder (O.told outside.old).wires.opened self.old.book }
        requires turns { self.old.turns ≡ 0 }
        ensures { RunsOn U.SafeUser (plan_of_loop (K.entries keys.now) plan.now) self.old self.new (O.told outside.old) (O.told outside.new) result }
    {
        for _ in 0..plan.turns {
            match self.go(alloc, keys, plan, outside)? {
                Next::GoesOn => {}
                Next::Ended => {
                    return Ok(Served {
                        turns: self.turns,
                        why: LoopStop::Ended,
                    });
                }
                Next::Closed => {
                    return Ok(Served {
                        turns: self.turns,
                        why: LoopStop::Closed,
                    });
                }
            }
        }
        Ok(Served {
            turns: self.turns,
            why: LoopStop::Turns,
        })
    }
}
