//! Events at a session, each with all that follows it.

ghost use Rattle.std.specs.Prelude.{◌≡◌, ◌≤◌, ◌-◌, List, [], length, drop, IfOk};
ghost use Rattle.safety_automaton.specs.Keys.{KmacEntry};
ghost use Rattle.safety_automaton.specs.Keys as keys;
ghost use Rattle.loop_model.specs.Sessions.{Begins, Ticks, Ends, Faults, handled, pours};
ghost use Rattle.loop_session.specs.Giving.{event_given_to_session, HasFewOctets, used_in, IsSameWith};
ghost use Rattle.loop_session.specs.Parts.{rules_of_session, OnlyPrints, Chooses};
ghost use Rattle.loop_session.specs.Keeping.{kept_ends};

use crate::loop_fault::LoopFault;
use crate::scratch::Scratch;
use crate::session::Session;
use crate::session_event::{Called, SessionEvent};
use crate::when::When;
use er_users::SafeUser;
use journal::Journal;
use safety_automaton::{KeyFinder, PairKey};

// What of a slice stands behind so many octets.
fn behind(octets: &[u8], at: usize) -> &[u8]
    requires { at ≤ length octets.now }
    ensures drops { result.now ≡ drop at octets.now }
    ensures length { length result.now ≡ length octets.now - at }
{
    &octets[at..]
}

impl<U: SafeUser> Session<U> {
    // An event with all that follows it: the user hears of it and replies, the messages that wait are taken, and a released session parts
    // from its user. How many octets the end used.
    fn handle<K: KeyFinder, O: Journal>(
        &mut self,
        event: &SessionEvent<'_>,
        keys: &K,
        when: &When,
        scratch: &mut Scratch,
        outside: &mut O,
    ) -> Result<usize, LoopFault>
        requires { HasFewOctets (event_given_to_session event.now) }
        ensures chooses { (entries : List KmacEntry) → IsSameWith (K.entries keys.now) (rules_of_session entries when.now.setup) (event_given_to_session event.now)
            → Chooses (O.told outside.old) (O.told outside.new) self.new
            (handled kept_ends (rules_of_session entries when.now.setup) when.now.moment self.old (event_given_to_session event.now)) result }
        ensures used { IfOk result (λ used. used ≡ used_in self.old.end (event_given_to_session event.now)) }
        ensures number { self.new.number ≡ self.old.number }
        ensures only { OnlyPrints (O.told outside.old) (O.told outside.new) }
    {
        let used = self.deal(event, keys, when.moment, scratch, outside)?;
        self.take_all(when.moment, scratch, outside)?;
        self.part(when);
        Ok(used)
    }

    // An event at which no key is looked up, with all that follows it.
    fn happen<O: Journal>(
        &mut self,
        event: &SessionEvent<'_>,
        when: &When,
        scratch: &mut Scratch,
        outside: &mut O,
    ) -> Result<(), LoopFault>
        requires { HasFewOctets (event_given_to_session event.now) }
        ensures chooses { (entries : List keys.KmacEntry) → IsSameWith [] (rules_of_session entries when.now.setup) (event_given_to_session event.now)
            → Chooses (O.told outside.old) (O.told outside.new) self.new
            (handled kept_ends (rules_of_session entries when.now.setup) when.now.moment self.old (event_given_to_session event.now)) result }
        ensures number { self.new.number ≡ self.old.number }
        ensures only { OnlyPrints (O.told outside.old) (O.told outside.new) }
    {
        self.handle(event, &None::<PairKey>, when, scratch, outside)?;
        Ok(())
    }

    /// A moment has come.
    pub fn tick<O: Journal>(
        &mut self,
        when: &When,
        scratch: &mut Scratch,
        outside: &mut O,
    ) -> Result<(), LoopFault>
        ensures chooses { (entries : List keys.KmacEntry) → Chooses (O.told outside.old) (O.told outside.new) self.new
            (handled kept_ends (rules_of_session entries when.now.setup) when.now.moment self.old Ticks) result }
        ensures number { self.new.number ≡ self.old.number }
        ensures only { OnlyPrints (O.told outside.old) (O.told outside.new) }
    {
        self.happen(&SessionEvent::Tick, when, scratch, outside)
    }

    /// The end of an engine begins: its station sends the set-up frame.
    pub fn call<O: Journal>(
        &mut self,
        call: &Called,
        when: &When,
        scratch: &mut Scratch,
        outside: &mut O,
    ) -> Result<(), LoopFault>
        ensures chooses { (entries : List keys.KmacEntry) → Chooses (O.told outside.old) (O.told outside.new) self.new
            (handled kept_ends (rules_of_session entries when.now.setup) when.now.moment self.old (Begins call.now.engine call.now.rbc call.now.rb)) result }
        ensures number { self.new.number ≡ self.old.number }
        ensures only { OnlyPrints (O.told outside.old) (O.told outside.new) }
    {
        self.happen(&SessionEvent::Call(call), when, scratch, outside)
    }

    /// The line ended: the connection is to be closed.
    pub fn ended<O: Journal>(
        &mut self,
        when: &When,
        scratch: &mut Scratch,
        outside: &mut O,
    ) -> Result<(), LoopFault>
        ensures chooses { (entries : List keys.KmacEntry) → Chooses (O.told outside.old) (O.told outside.new) self.new
            (handled kept_ends (rules_of_session entries when.now.setup) when.now.moment self.old Ends) result }
        ensures number { self.new.number ≡ self.old.number }
        ensures only { OnlyPrints (O.told outside.old) (O.told outside.new) }
    {
        self.happen(&SessionEvent::Ended, when, scratch, outside)
    }

    /// The line failed: the connection is to be closed.
    pub fn fault<O: Journal>(
        &mut self,
        when: &When,
        scratch: &mut Scratch,
        outside: &mut O,
    ) -> Result<(), LoopFault>
        ensures chooses { (entries : List keys.KmacEntry) → Chooses (O.told outside.old) (O.told outside.new) self.new
            (handled kept_ends (rules_of_session entries when.now.setup) when.now.moment self.old Faults) result }
        ensures number { self.new.number ≡ self.old.number }
        ensures only { OnlyPrints (O.told outside.old) (O.told outside.new) }
    {
        self.happen(&SessionEvent::Fault, when, scratch, outside)
    }

    /// The octets of a read come: they are given to the end frame by frame, until the session breaks off.
    pub fn pour<K: KeyFinder, O: Journal>(
        &mut self,
        octets: &[u8],
        keys: &K,
        when: &When,
        scratch: &mut Scratch,
        outside: &mut O,
    ) -> Result<(), LoopFault>
        requires { length octets.now ≤ 4096 }
        ensures chooses { Chooses (O.told outside.old) (O.told outside.new) self.new
            (pours kept_ends (rules_of_session (K.entries keys.now) when.now.setup) when.now.moment self.old octets.now) result }
        ensures number { self.new.number ≡ self.old.number }
        ensures only { OnlyPrints (O.told outside.old) (O.told outside.new) }
    {
        er_end::laws::used_octets();
        let mut at = 0;
        while at < octets.len() {
            if self.is_broken() {
                return Ok(());
            }
            let event = SessionEvent::Octets(behind(octets, at));
            at += self.handle(&event, keys, when, scratch, outside)?;
        }
        Ok(())
    }
}
