//! The sessions of the live connections.

ghost use Rattle.std.specs.Prelude.{◌≡◌, ◌≤◌, ◌<◌, ◌+◌, ◌-◌, ◌++◌, ◌∷◌, ◌==◌, if◌then◌else◌, [], ℕ, Some, length, vec_len, map, IfOk, OnOk, OnErr};
ghost use Rattle.std.specs.Ordering.{nat_cmp};
ghost use Rattle.std.specs.BTreeMap.{insert_entry, IsOrdered, UpdatesBy};
ghost use Rattle.slab.specs.Slab.{HasRoomFor};
ghost use Rattle.loop_model.specs.Loops.{visit_at, swept, numbers, until};
ghost use Rattle.loop_session.specs.Keeping.{kept_ends};
ghost use Rattle.loop_io.specs.Visiting.{visit_by, visit_of, DoesOn, Keep};
ghost use Rattle.readiness_loop.specs.Books.{IsTimedVisit};
ghost use Rattle.readiness_loop.specs.Lives.{sessions_in, IsSeated, HasAllWakeTimes, IsBookInOrder, TakesSeat};
ghost use Rattle.readiness_loop.specs.WakeTimes.{has_wake_time, is_moment};

use crate::wake_times::WakeTimes;
use er_base::NoMemory;
use er_end::End;
use er_users::SafeUser;
use journal::Journal;
use loop_io::{Visit, Workspace, visit_session};
use loop_session::{LoopFault, Session, When};
use safety_automaton::KeyFinder;
use slab::Slab;
use std::alloc::Global;
use std::collections::BTreeMap;

/// The most connections that are live.
pub const MOST_LIVE: usize = 256;

// The sessions of the live connections: each stands in a slot, which is found by the number of its connection. When each is to be visited
// next is kept in order, so that what comes by the clock costs by the sessions that are due.
#[derive(Drop)]
pub(crate) struct Book<U: SafeUser> {
    pub(crate) slots: Slab<Session<U>>,
    pub(crate) places: BTreeMap<u64, usize>,
    pub(crate) wake_times: WakeTimes,
}

impl<U: SafeUser> Book<U> {
    // No session, with the room for as many as may be live.
    pub(crate) fn new(alloc: Global) -> Result<Book<U>, NoMemory>
        ensures empty { IfOk result (λ book. book.places.entries ≡ []) }
        ensures awaited { IfOk result (λ book. HasAllWakeTimes book) }
    {
        Ok(Book {
            slots: Slab::with_capacity(alloc, MOST_LIVE)?,
            places: BTreeMap::new(alloc),
            wake_times: WakeTimes::new(alloc),
        })
    }

    // How many sessions there are.
    pub(crate) fn len(&self) -> usize
        ensures { result ≡ length self.now.places.entries }
    {
        self.places.len()
    }

    // The first moment at which one of them is to be visited.
    pub(crate) fn until(&self) -> Option<u64>
        requires awaited { HasAllWakeTimes self.now }
        ensures { result ≡ until kept_ends (sessions_in self.now) }
    {
        self.wake_times.first()
    }

    // Room for a session of this number, above those of the others, that is to be visited first at this moment: its place stands already, and its slot is
    // the next. Where there is no memory for it the places are as they were.
    fn make_room(&mut self, number: u64, wake: Option<u64>) -> Result<(), NoMemory>
        requires order { IsBookInOrder (number - 1) self.old }
        requires number { 0 < number }
        ensures room { OnOk result (HasRoomFor self.new.slots 1) }
        ensures slots { self.new.slots ≡ record self.old.slots { capacity = self.new.slots.capacity } }
        ensures entries { OnOk result (self.new.places.entries ≡ insert_entry nat_cmp self.old.places.entries number self.new.slots.vacant_key) }
        ensures updates { OnOk result (UpdatesBy nat_cmp (nat_cmp number) self.old.places self.new.places (Some self.new.slots.vacant_key)) }
        ensures ordered { IsOrdered nat_cmp self.new.places }
        ensures wakes { OnOk result ((m n : ℕ) → has_wake_time self.new.wake_times.pairs m n
            ≡ (if n == number then is_moment m wake else has_wake_time self.old.wake_times.pairs m n)) }
        ensures same_places { OnErr result (self.new.places.entries ≡ self.old.places.entries) }
        ensures same_wakes { OnErr result ((m n : ℕ) → has_wake_time self.new.wake_times.pairs m n ≡ has_wake_time self.old.wake_times.pairs m n) }
    {
        self.slots.reserve(1)?;
        let slot = self.slots.vacant_key();
        self.wake_times.change(number, None, wake)?;
        match self.places.insert(number, slot) {
            Ok(_) => Ok(()),
            Err(failed) => {
                self.wake_times.forget(number, wake);
                Err(NoMemory::from(failed))
            }
        }
    }

    // A session joins the others; its number is above theirs.
    pub(crate) fn add(&mut self, session: Session<U>) -> Result<(), NoMemory>
        requires order { IsBookInOrder (session.number - 1) self.old }
        requires number { 0 < session.number }
        ensures sessions { OnOk result (sessions_in self.new ≡ sessions_in self.old ++ session ∷ []) }
        ensures seated { OnOk result (IsSeated session.number self.new) }
        ensures awaited { OnOk result (HasAllWakeTimes self.new) }
    {
        let number = session.number();
        let wake = session.wakes();
        self.make_room(number, wake)?;
        self.slots.insert_reserved(session);
        Ok(())
    }

    // The session of a connection begins, with this end and the last of the users; its number is above those of the others. Where there is no memory for it
    // the others and the users are as they were.
    pub(crate) fn seat(
        &mut self,
        alloc: Global,
        number: u64,
        end: Box<End>,
        users: &mut Vec<U>,
    ) -> Result<(), NoMemory>
        requires order { IsBookInOrder (number - 1) self.old }
        requires number { 0 < number }
        requires users { 0 < vec_len users.old }
        ensures seats { OnOk result (TakesSeat self.old self.new (map U.mind users.old.items) (map U.mind users.new.items) number end.value) }
        ensures sessions { OnErr result (sessions_in self.new ≡ sessions_in self.old) }
        ensures users { OnErr result (users.new ≡ users.old) }
        ensures seated { IsSeated number self.new }
        ensures awaited { HasAllWakeTimes self.new }
    {
        self.make_room(number, end.deadline())?;
        match users.pop() {
            Some(user) => {
                let session = Session::begin(alloc, number, end, user);
                self.slots.insert_reserved(session);
                Ok(())
            }
            None => Ok(()),
        }
    }

    // The session of this number is visited, where there is one.
    #[tactic(auto, using(crate::proofs::Quiets::keeps_all))]
    pub(crate) fn visit<K: KeyFinder, O: Journal>(
        &mut self,
        number: u64,
        reason: Visit,
        keys: &K,
        when: &When,
        workspace: &mut Workspace,
        outside: &mut O,
    ) -> Result<(), LoopFault>
        requires { IsBookInOrder (O.told outside.old).wires.opened self.old }
        ensures does { DoesOn (O.told outside.old) (O.told outside.new) (sessions_in self.new)
            (visit_at (visit_by (K.entries keys.now) when.now reason) number (sessions_in self.old)) result }
        ensures seated { OnOk result (IsSeated (O.told outside.new).wires.opened self.new) }
        ensures awaited { OnOk result (HasAllWakeTimes self.new) }
        ensures keep { Keep (O.told outside.old) (O.told outside.new) }
    {
        let Some(slot) = self.places.get(&number).copied() else {
            return Ok(());
        };
        let Some(session) = self.slots.get_mut(slot) else {
            return Ok(());
        };
        let before = session.wakes();
        match visit_session(session, reason, keys, when, workspace, outside) {
            Ok(true) => {
                let now = session.wakes();
                self.wake_times.change(number, before, now)?;
                Ok(())
            }
            Ok(false) => {
                self.places.remove(&number);
                workspace.keep_place(self.slots.try_remove(slot));
                self.wake_times.change(number, before, None)?;
                Ok(())
            }
            Err(fault) => Err(fault),
        }
    }

    // The sessions are visited whose moment has come, one after the other in rising number.
    #[tactic(auto, using(crate::proofs::Sweeps::want_stopped, crate::proofs::Quiets::keeps_all))]
    pub(crate) fn sweep<K: KeyFinder, O: Journal>(
        &mut self,
        reason: Visit,
        sequence: &mut Vec<u64>,
        keys: &K,
        when: &When,
        workspace: &mut Workspace,
        outside: &mut O,
    ) -> Result<(), LoopFault>
        requires timed { IsTimedVisit (visit_of reason) }
        requires order { IsBookInOrder (O.told outside.old).wires.opened self.old }
        ensures does { DoesOn (O.told outside.old) (O.told outside.new) (sessions_in self.new)
            (swept (visit_by (K.entries keys.now) when.now reason) (numbers (sessions_in self.old)) (sessions_in self.old)) result }
        ensures seated { OnOk result (IsSeated (O.told outside.new).wires.opened self.new) }
        ensures awaited { OnOk result (HasAllWakeTimes self.new) }
        ensures keep { Keep (O.told outside.old) (O.told outside.new) }
    {
        self.wake_times.due(when.moment, sequence)?;
        self.visit_all(sequence.as_slice(), reason, keys, when, workspace, outside)
    }

    // The sessions of these numbers are visited, one after the other.
    fn visit_all<K: KeyFinder, O: Journal>(
        &mut self,
        sequence: &[u64],
        reason: Visit,
        keys: &K,
        when: &When,
        workspace: &mut Workspace,
        outside: &mut O,
    ) -> Result<(), LoopFault>
        requires { IsBookInOrder (O.told outside.old).wires.opened self.old }
        ensures does { DoesOn (O.told outside.old) (O.told outside.new) (sessions_in self.new)
            (swept (visit_by (K.entries keys.now) when.now reason) sequence.now (sessions_in self.old)) result }
        ensures seated { OnOk result (IsSeated (O.told outside.new).wires.opened self.new) }
        ensures awaited { OnOk result (HasAllWakeTimes self.new) }
        ensures keep { Keep (O.told outside.old) (O.told outside.new) }
    {
        for number in sequence {
            self.visit(*number, reason, keys, when, workspace, outside)?;
        }
        Ok(())
    }
}
