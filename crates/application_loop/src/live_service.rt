//! A loop with its connections and its application, turn by turn.

ghost use Rattle.std.specs.Prelude.{◌≤◌, ◌≡◌, ℕ, length, take, Some, IfOk};
ghost use Rattle.std.specs.List.{slice_get};
ghost use Rattle.outside.specs.Doings.{Told};
ghost use Rattle.application_port.specs.Ports.{attendance_of};
ghost use Rattle.application_serving.specs.Going.{ServiceRun};
ghost use Rattle.application_loop.specs.declared.link.Link.{Link};
ghost use Rattle.application_loop.specs.Living.{entries_for_service, Living, Resting, RestingOr, RestsAgain};
ghost use Rattle.application_loop.specs.Turning.{calls_with, IsUnusedWith, SeesMoment, HasRead, comes_now, meets_application, IsSeen, IsBrought};

use crate::desk::Desk;
use crate::links::Links;
use crate::plan::{ServiceEnd, ServicePlan};
use crate::service_keys::ServiceKeys;
use crate::speaker::Speaker;
use er_base::{Moment, NoMemory};
use journal::Journal;
use link_trait::{Conn, Happening, ReadAnswer};
use loop_session::{LoopFault, Scratch, SessionEvent, When};
use outside::Outside;
use std::alloc::Global;

// The most octets that one read asks for.
const MOST_READ: usize = 4_096;

// The application's number in the wires.
pub(crate) const APPLICATION: Conn = Conn(0);

// A loop: its connections, its application, and its keys.
#[derive(Drop)]
pub(crate) struct LiveService {
    pub(crate) links: Links,
    pub(crate) desk: Desk,
    pub(crate) speaker: Speaker,
    pub(crate) keys: ServiceKeys,
    // The greatest moment that the clock gave.
    pub(crate) moment: Moment,
    // Nothing more is accepted.
    pub(crate) draining: bool,
    // It opens its one connection itself.
    pub(crate) calls: bool,
    pub(crate) scratch: Scratch,
    // Of a read only the octets that it gave are looked at, so those of an earlier one may stand behind them.
    pub(crate) read: [u8; MOST_READ],
}

// What a turn brought.
#[derive(Clone, Copy)]
pub(crate) enum Brought {
    // An application, where nobody was there.
    Application,
    // What the wires say.
    Wires(Happening),
}

// The first octets of a slice.
pub(crate) fn front(octets: &[u8], count: usize) -> &[u8]
    ensures within { length result.now ≤ length octets.now }
    ensures front { result.now ≡ take count octets.now }
{
    octets.get(..count).unwrap_or(octets)
}

impl LiveService {
    // A loop with no connection, over these keys.
    pub(crate) fn new(alloc: Global, keys: ServiceKeys) -> Result<LiveService, NoMemory>
        ensures unused { IfOk result (λ live. IsUnusedWith live (entries_for_service keys)) }
        ensures calls { IfOk result (λ live. live.calls ≡ calls_with keys) }
    {
        let calls = matches!(keys, ServiceKeys::Pair(_));
        let scratch = Scratch::new(alloc)?;
        let desk = Desk::new(alloc)?;
        let links = Links::new(alloc)?;
        Ok(LiveService {
            links,
            desk,
            speaker: Speaker::new(alloc),
            keys,
            moment: Moment::new(0),
            draining: false,
            calls,
            scratch,
            read: [0; MOST_READ],
        })
    }

    // The clock is asked. No moment is below an earlier one.
    pub(crate) fn see_moment<O: Outside>(&mut self, outside: &mut O)
        ensures sees { SeesMoment (O.told outside.old) self.old (O.told outside.new) self.new }
    {
        let moment = Moment::new(outside.moment());
        self.moment = self.moment.later(moment);
    }

    // The moment, and the set-up time.
    pub(crate) fn when(&self, plan: &ServicePlan<'_>) -> When
        ensures moment { result.moment ≡ self.now.moment }
    {
        When::of(self.moment, &plan.settings)
    }

    // What is read of a connection comes to its end: octets, the end of the line, or a fault.
    fn hear<O: Journal>(
        &mut self,
        place: usize,
        answer: ReadAnswer,
        when: &When,
        outside: &mut O,
    ) -> Result<(), LoopFault>
        ensures hears { (run : ServiceRun) (link : Link) → slice_get self.old.links.list.items place ≡ Some link → when.now.moment ≡ self.old.moment
            → HasRead run (O.told outside.old) self.old link.number answer → RestingOr run (O.told outside.new) self.new result }
    {
        let links = &mut self.links;
        let desk = &mut self.desk;
        match answer {
            ReadAnswer::Some(count) => {
                let octets = front(&self.read, count);
                match &self.keys {
                    ServiceKeys::File(store) => links.pour(
                        place, octets, store, when, desk, outside,
                    ),
                    ServiceKeys::Pair(pair) => links.pour(place, octets, pair, when, desk, outside),
                }
            }
            ReadAnswer::End => links.befall(place, &SessionEvent::Ended, when, desk, outside),
            ReadAnswer::Failed => links.befall(place, &SessionEvent::Fault, when, desk, outside),
            ReadAnswer::NotNow => Ok(()),
        }
    }

    // Octets may wait at a connection. One whose end is released isn't read from.
    fn read<O: Journal>(
        &mut self,
        conn: Conn,
        when: &When,
        outside: &mut O,
    ) -> Result<(), LoopFault>
        ensures rests { when.now.moment ≡ self.old.moment → RestsAgain (O.told outside.old) self.old (O.told outside.new) self.new result }
    {
        let Some(place) = self.links.place_of(conn.0) else {
            return Ok(());
        };
        if !self.links.is_heard(place) {
            return Ok(());
        }
        let answer = outside.read(conn, &mut self.read);
        self.hear(place, answer, when, outside)
    }

    // Octets may wait at a connection, or at the application.
    fn readable<O: Journal>(
        &mut self,
        conn: Conn,
        when: &When,
        outside: &mut O,
    ) -> Result<(), LoopFault>
        ensures rests { when.now.moment ≡ self.old.moment → RestsAgain (O.told outside.old) self.old (O.told outside.new) self.new result }
    {
        if conn == APPLICATION {
            self.speaker.unread = true;
            return Ok(());
        }
        self.read(conn, when, outside)
    }

    // There may be room for octets to a connection, or to the application.
    fn writable(&mut self, conn: Conn)
        ensures rests { (run : ServiceRun) (told : Told) → Resting run told self.old → Resting run told self.new }
    {
        if conn == APPLICATION {
            self.speaker.put_off = false;
            return;
        }
        if let Some(place) = self.links.place_of(conn.0) {
            self.links.has_room_again(place);
        }
    }

    // An application came, and is told who is connected before all else.
    fn meet_application<O: Journal>(
        &mut self,
        when: &When,
        outside: &mut O,
    ) -> Result<(), LoopFault>
        ensures meets { (run : ServiceRun) → when.now.moment ≡ self.old.moment → Living run (O.told outside.old) (meets_application self.old.moment) self.old
            → RestingOr run (O.told outside.new) self.new result }
    {
        self.links.introduce(&mut self.desk)?;
        self.links.take_waiting(when, &mut self.desk, outside)
    }

    // What the wires say is handled whole, but for what is written then.
    fn react<O: Journal>(
        &mut self,
        alloc: Global,
        happening: Happening,
        plan: &ServicePlan<'_>,
        outside: &mut O,
    ) -> Result<(), LoopFault>
        ensures reacts { (run : ServiceRun) → run.settings ≡ plan.now.settings → IsSeen run (O.told outside.old) self.old happening
            → RestingOr run (O.told outside.new) self.new result }
    {
        let when = self.when(plan);
        match happening {
            Happening::Accepted(conn) => self.accept(alloc, conn, plan, outside),
            Happening::Readable(conn) => self.readable(conn, &when, outside),
            Happening::Writable(conn) => Ok(self.writable(conn)),
            Happening::Quiet | Happening::Ended | Happening::Failed => Ok(()),
        }
    }

    // What a turn brought is handled whole, but for what is written then.
    fn meet<O: Journal>(
        &mut self,
        alloc: Global,
        brought: Brought,
        plan: &ServicePlan<'_>,
        outside: &mut O,
    ) -> Result<(), LoopFault>
        ensures meets { (run : ServiceRun) → run.settings ≡ plan.now.settings → IsBrought run (O.told outside.old) self.old.moment self.old brought
            → RestingOr run (O.told outside.new) self.new result }
    {
        match brought {
            Brought::Application => {
                let when = self.when(plan);
                self.meet_application(&when, outside)
            }
            Brought::Wires(happening) => self.react(alloc, happening, plan, outside),
        }
    }

    // Whether there is something to do at the application now.
    fn is_port_restless(&self) -> bool {
        if self.desk.port.has_room() && self.speaker.is_speaking() {
            return true;
        }
        if self.speaker.put_off {
            return false;
        }
        !self.desk.port.output().is_empty()
    }

    // The moment until which the wires may wait for what happens.
    fn until(&self) -> Option<u64> {
        if self.is_port_restless() || self.links.is_restless() {
            return Some(self.moment.get());
        }
        self.links.until()
    }

    // Why the loop stops, where no connection is left: its one was closed, or nothing more is accepted. What the application is still to be told is
    // written first.
    fn over(&self) -> Option<ServiceEnd> {
        if self.links.len() > 0 || self.is_port_restless() {
            return None;
        }
        if self.draining {
            return Some(ServiceEnd::Drained);
        }
        if self.calls {
            return Some(ServiceEnd::Closed);
        }
        None
    }

    // Whether an application comes: it can be written to where nobody was there.
    fn is_coming(&self, happening: Happening) -> bool
        ensures { result ≡ comes_now happening (attendance_of self.now.desk.port) }
    {
        if self.desk.port.is_attached() {
            return false;
        }
        match happening {
            Happening::Writable(conn) => conn.0 == 0,
            Happening::Accepted(_)
            | Happening::Readable(_)
            | Happening::Quiet
            | Happening::Ended
            | Happening::Failed => false,
        }
    }

    // One turn of the wires. An application that comes is there from then on, and may have said something already.
    fn turn<O: Outside>(&mut self, outside: &mut O) -> Brought
        ensures turns { (run : ServiceRun) (moment : ℕ) → Resting run (O.told outside.old) self.old → IsBrought run (O.told outside.new) moment self.new result }
    {
        let happening = outside.turn(self.until());
        if !self.is_coming(happening) {
            return Brought::Wires(happening);
        }
        self.desk.port.attach();
        self.speaker.begin();
        Brought::Application
    }

    // One turn, with what comes before and behind it. Why the loop stops, where it does.
    fn go<O: Journal>(
        &mut self,
        alloc: Global,
        plan: &ServicePlan<'_>,
        outside: &mut O,
    ) -> Result<Option<ServiceEnd>, LoopFault>
        ensures rests { (run : ServiceRun) → run.settings ≡ plan.now.settings → Resting run (O.told outside.old) self.old
            → RestingOr run (O.told outside.new) self.new result }
    {
        self.see_moment(outside);
        self.do_due(alloc, plan, outside)?;
        if let Some(end) = self.over() {
            return Ok(Some(end));
        }
        let brought = self.turn(outside);
        self.see_moment(outside);
        self.meet(alloc, brought, plan, outside)?;
        self.settle(alloc, plan, outside)?;
        self.behind(brought)
    }

    // What follows what a turn brought.
    fn behind(&self, brought: Brought) -> Result<Option<ServiceEnd>, LoopFault> {
        match brought {
            Brought::Wires(Happening::Ended) => Ok(Some(ServiceEnd::Ended)),
            Brought::Wires(Happening::Failed) => Err(LoopFault::Wires),
            Brought::Application | Brought::Wires(_) => Ok(self.over()),
        }
    }

    // All turns of the plan, unless the loop stops before.
    pub(crate) fn run<O: Journal>(
        &mut self,
        alloc: Global,
        plan: &ServicePlan<'_>,
        outside: &mut O,
    ) -> Result<ServiceEnd, LoopFault>
        ensures rests { (run : ServiceRun) → run.settings ≡ plan.now.settings → Resting run (O.told outside.old) self.old
            → RestingOr run (O.told outside.new) self.new result }
    {
        for _ in 0..plan.turns {
            match self.go(alloc, plan, outside)? {
                Some(end) => return Ok(end),
                None => {}
            }
        }
        Ok(ServiceEnd::Turns)
    }
}
