//! The connections of a trace, and each event at its own.

ghost use Rattle.std.specs.Prelude.{ℕ, List, ◌≡◌, ◌≤◌, true, false, [], Some, None, OnOk, MatchResult};
ghost use Rattle.std.specs.BTreeMap.{get, btree_map_len};
ghost use Rattle.std.specs.Ordering.{nat_cmp};
ghost use Rattle.er_settings.specs.Ranges.{AllAllowed};
ghost use Rattle.safety_automaton.specs.Keys.{key_at};
ghost use Rattle.er_trace.specs.declared.entry.Entry.{Entry as TraceEntry};
ghost use Rattle.er_trace.specs.declared.event.Event.TheVariants as event;
ghost use Rattle.er_settings.specs.Values.{Settings as TraceSettings};
ghost use Rattle.er_end_model.specs.Steps.{Finds};
ghost use Rattle.er_end.specs.KeptEnds.{KEnd};
ghost use Rattle.trace_model.specs.declared.replay_fault.ReplayFault.TheVariants as fault;
ghost use Rattle.trace_model.specs.Checks.{role_of, Declines, Belongs, many_check, last_moment};
ghost use Rattle.trace_replay.specs.Places.{Places, place_of_connection, place_for, Declined, is_absent, over_of, why_in, HoldsOfAllConnections};
ghost use Rattle.trace_replay.specs.Takings.{GivesIfLive, TakesTraceEvent};

use crate::gives::{give, give_start, tell_over};
use er_base::{EtcsNumber, NoMemory, Release};
use er_end::End;
use er_settings::Settings;
use er_trace::{Entry, Event, print_entry};
use safety_automaton::KeyFinder;
use std::alloc::Global;
use std::collections::BTreeMap;
use trace_model::ReplayFault;

/// The most ends that may be live at once.
const MOST_LIVE: usize = 256;

// What an engine calls with.
#[derive(Clone, Copy)]
struct Calling {
    engine: EtcsNumber,
    rbc: EtcsNumber,
    rb: u64,
}

/// What is kept of the connections that were named: an end while it is live, and then why it was released.
#[derive(Drop)]
pub struct Connections {
    alloc: Global,
    live: BTreeMap<u64, End>,
    over: BTreeMap<u64, Option<Release>>,
}

// Settings are in their ranges, by their type: this call does nothing.
fn see_settings(settings: &Settings)
    ensures { AllAllowed settings.now }
{
    let _setup = settings.setup;
}

// Why an end is over: it is released, and no message waits. None where it is live.
#[tactic(auto, unfolding(crate::specs::Places::over_of))]
fn over_by(end: &End) -> Option<Release>
    ensures { result ≡ over_of end.now }
{
    if end.waiting() == 0 {
        end.released()
    } else {
        None
    }
}

impl Connections {
    /// Nothing was named yet.
    pub fn new(alloc: Global) -> Connections
        ensures live { result.live.entries ≡ [] }
        ensures over { result.over.entries ≡ [] }
    {
        Connections {
            alloc,
            live: BTreeMap::new(alloc),
            over: BTreeMap::new(alloc),
        }
    }

    // Nothing named the number of the entry yet.
    #[tactic(auto, using(crate::proofs::Changes::absent_if, crate::proofs::Changes::there_live, crate::proofs::Changes::there_over))]
    fn check_new(&self, entry: &Entry) -> Result<(), ReplayFault>
        ensures { MatchResult result
            (λ _. is_absent (place_of_connection self.now entry.now.conn) ≡ true)
            (λ f. (f ≡ fault.ConnTwice entry.now.line entry.now.conn) × (is_absent (place_of_connection self.now entry.now.conn) ≡ false)) }
    {
        if self.live.contains_key(&entry.conn) {
            return Err(ReplayFault::ConnTwice {
                line: entry.line,
                conn: entry.conn,
            });
        }
        if self.over.contains_key(&entry.conn) {
            return Err(ReplayFault::ConnTwice {
                line: entry.line,
                conn: entry.conn,
            });
        }
        Ok(())
    }

    // Another end may be opened.
    fn check_room(&self, entry: &Entry) -> Result<(), ReplayFault>
        ensures { MatchResult result
            (λ _. many_check entry.now.line (btree_map_len self.now.live) ≡ None)
            (λ f. many_check entry.now.line (btree_map_len self.now.live) ≡ Some f) }
    {
        let live = self.live.len();
        if live >= MOST_LIVE {
            return Err(ReplayFault::Many {
                line: entry.line,
                live,
            });
        }
        Ok(())
    }

    // A live end that is over is dropped, and why it was released is kept.
    fn settle(&mut self, conn: u64) -> Result<(), NoMemory>
        ensures { (k : KEnd) → get nat_cmp self.old.live conn ≡ Some k → OnOk result (Places self.old self.new conn (place_for k)) }
    {
        let Some(end) = self.live.get(&conn) else {
            return Ok(());
        };
        let Some(why) = over_by(end) else {
            return Ok(());
        };
        self.over.insert(conn, Some(why))?;
        self.live.remove(&conn);
        Ok(())
    }

    // Keeps the end of a connection that nothing named before.
    fn open(&mut self, conn: u64, end: End) -> Result<(), NoMemory>
        ensures { is_absent (place_of_connection self.old conn) ≡ true → OnOk result (Places self.old self.new conn (place_for end)) }
    {
        self.live.insert(conn, end)?;
        self.settle(conn)
    }

    // Keeps that no end is opened for a connection that nothing named before.
    fn shut(&mut self, conn: u64) -> Result<(), NoMemory>
        ensures { is_absent (place_of_connection self.old conn) ≡ true → OnOk result (Places self.old self.new conn Declined) }
    {
        self.over.insert(conn, None)?;
        Ok(())
    }

    // Why the end of a connection was released that is over; None where none is.
    fn why_over(&self, conn: u64) -> Option<Release>
        ensures { result ≡ why_in (get nat_cmp self.now.over conn) }
    {
        match self.over.get(&conn) {
            Some(why) => *why,
            None => None,
        }
    }

    // A call: the end of an engine is made and started.
    fn call<K: KeyFinder>(
        &mut self,
        settings: &Settings,
        keys: &K,
        entry: &Entry,
        call: &Calling,
        out: &mut Vec<u8>,
    ) -> Result<(), ReplayFault>
        requires { entry.now.event ≡ event.Call call.now.engine call.now.rbc call.now.rb }
        ensures { (before : List TraceEntry) → HoldsOfAllConnections settings.now (key_at (K.entries keys.now)) before self.old → last_moment before ≤ entry.now.moment
            → TakesTraceEvent settings.now (key_at (K.entries keys.now)) before entry.now self.new out.old.items out.new.items result }
    {
        er_end::laws::standing();
        see_settings(settings);
        self.check_new(entry)?;
        let Some(kmac) = keys.find(call.engine, call.rbc, entry.moment) else {
            return Err(ReplayFault::NoKey {
                line: entry.line,
                engine: call.engine.get(),
                rbc: call.rbc.get(),
            });
        };
        self.check_room(entry)?;
        let mut end = End::call(
            self.alloc,
            settings,
            call.engine,
            call.rbc,
            kmac,
            call.rb,
            entry.moment,
        )?;
        print_entry(entry, out)?;
        give_start(&mut end, keys, entry.moment, entry.conn, out)?;
        self.open(entry.conn, end)?;
        Ok(())
    }

    // An answer: the end of a radio block centre is made.
    fn answer(
        &mut self,
        settings: &Settings,
        entry: &Entry,
        rbc: EtcsNumber,
        ra: u64,
        out: &mut Vec<u8>,
    ) -> Result<(), ReplayFault>
        requires { entry.now.event ≡ event.Answer rbc ra }
        ensures { (finds : Finds) (before : List TraceEntry) → HoldsOfAllConnections settings.now finds before self.old → last_moment before ≤ entry.now.moment
            → TakesTraceEvent settings.now finds before entry.now self.new out.old.items out.new.items result }
    {
        er_end::laws::standing();
        see_settings(settings);
        self.check_new(entry)?;
        self.check_room(entry)?;
        let end = End::answer(self.alloc, settings, rbc, ra, entry.moment)?;
        print_entry(entry, out)?;
        self.open(entry.conn, end)?;
        Ok(())
    }

    // A connection for which no end is opened.
    fn decline(&mut self, entry: &Entry, out: &mut Vec<u8>) -> Result<(), ReplayFault>
        requires event { role_of entry.now.event ≡ Declines }
        ensures { (settings : TraceSettings) (finds : Finds) (before : List TraceEntry) → HoldsOfAllConnections settings finds before self.old → last_moment before ≤ entry.now.moment
            → TakesTraceEvent settings finds before entry.now self.new out.old.items out.new.items result }
    {
        self.check_new(entry)?;
        print_entry(entry, out)?;
        self.shut(entry.conn)?;
        Ok(())
    }

    // Gives an event to the end of a live connection: whether there is one.
    fn give_live<K: KeyFinder>(
        &mut self,
        keys: &K,
        entry: &Entry,
        out: &mut Vec<u8>,
    ) -> Result<bool, NoMemory>
        requires { role_of entry.now.event ≡ Belongs }
        ensures { GivesIfLive (key_at (K.entries keys.now)) entry.now self.old self.new out.old.items out.new.items result }
    {
        let Some(end) = self.live.get_mut(&entry.conn) else {
            return Ok(false);
        };
        print_entry(entry, out)?;
        give(end, keys, entry, out)?;
        Ok(true)
    }

    // An event at an end that was opened.
    fn give<K: KeyFinder>(
        &mut self,
        keys: &K,
        entry: &Entry,
        out: &mut Vec<u8>,
    ) -> Result<(), ReplayFault>
        requires { role_of entry.now.event ≡ Belongs }
        ensures { (settings : TraceSettings) (before : List TraceEntry) → HoldsOfAllConnections settings (key_at (K.entries keys.now)) before self.old → last_moment before ≤ entry.now.moment
            → TakesTraceEvent settings (key_at (K.entries keys.now)) before entry.now self.new out.old.items out.new.items result }
    {
        er_end::laws::standing();
        if self.give_live(keys, entry, out)? {
            self.settle(entry.conn)?;
            return Ok(());
        }
        let Some(why) = self.why_over(entry.conn) else {
            return Err(ReplayFault::NoConn {
                line: entry.line,
                conn: entry.conn,
            });
        };
        print_entry(entry, out)?;
        tell_over(entry, why, out)?;
        Ok(())
    }

    /// Takes an event whose moment isn't below an earlier one, and appends its line and those of its outcomes.
    pub fn take<K: KeyFinder>(
        &mut self,
        settings: &Settings,
        keys: &K,
        entry: &Entry,
        out: &mut Vec<u8>,
    ) -> Result<(), ReplayFault>
        ensures { (before : List TraceEntry) → HoldsOfAllConnections settings.now (key_at (K.entries keys.now)) before self.old → last_moment before ≤ entry.now.moment
            → TakesTraceEvent settings.now (key_at (K.entries keys.now)) before entry.now self.new out.old.items out.new.items result }
    {
        match &entry.event {
            Event::Call { engine, rbc, rb } => {
                let call = Calling {
                    engine: *engine,
                    rbc: *rbc,
                    rb: *rb,
                };
                self.call(settings, keys, entry, &call, out)
            }
            Event::Answer { rbc, ra } => self.answer(settings, entry, *rbc, *ra, out),
            Event::Full(_) | Event::Unserved(_) => self.decline(entry, out),
            _ => self.give(keys, entry, out),
        }
    }
}
