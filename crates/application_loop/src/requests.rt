//! What the lines of the application ask for.

ghost use Rattle.application_lines.specs.Requests.{IsRequestInRange};
ghost use Rattle.application_lines.specs.Taking.{IsApplicationLineInRange};
ghost use Rattle.loop_session.specs.Giving.{event_given_to_session, HasFewOctets};
ghost use Rattle.std.specs.Prelude.{◌≡◌, true, OnOk};
ghost use Rattle.er_end.specs.KeptEnds.{KEnd};
ghost use Rattle.er_trace.specs.declared.event.Event.{Event};
ghost use Rattle.loop_model.specs.Sessions.{journal_event_of_given};
ghost use Rattle.loop_session.specs.Keeping.{kept_ends};
ghost use Rattle.application_lines.specs.declared.application_line.ApplicationLine.TheVariants.{Asks};
ghost use Rattle.application_lines.specs.declared.request.Request.TheVariants.{Drain};
ghost use Rattle.application_model.specs.Services.{is_attached, reads_line, takes_waiting, at_live};
ghost use Rattle.application_port.specs.Ports.{attendance_of};
ghost use Rattle.application_serving.specs.Going.{ServiceRun, ToDo, and_then};
ghost use Rattle.application_loop.specs.Standing.{Rested};
ghost use Rattle.application_loop.specs.ServingParts.{IsWithoutOctets};
ghost use Rattle.application_loop.specs.Living.{fetch_then, scene_of_live, Living, RestingOr, LivingOr};
ghost use Rattle.application_loop.specs.KeysFetching.{UsesKeys, ReadsFile};

use crate::key_answers::{tell_key_fault, tell_no_key_file};
use crate::live_service::LiveService;
use crate::plan::ServicePlan;
use crate::service_keys::ServiceKeys;
use application_lines::{ApplicationLine, Notice, Request};
use journal::Journal;
use key_store::KeyStore;
use link_trait::FetchFault;
use loop_session::{LoopFault, SessionEvent, When};
use std::alloc::Global;

impl LiveService {
    // An event of the application at a connection, or one `gone`, and behind it the messages that wait are taken.
    fn occur_at<O: Journal>(
        &mut self,
        connection: u64,
        event: &SessionEvent<'_>,
        when: &When,
        outside: &mut O,
    ) -> Result<(), LoopFault>
        requires { HasFewOctets (event_given_to_session event.now) }
        ensures occurs { (what : Event) → ((k : KEnd) → journal_event_of_given kept_ends k (event_given_to_session event.now) ≡ what) → when.now.moment ≡ self.old.moment
            → IsWithoutOctets (event_given_to_session event.now) → (run : ServiceRun)
            → Living run (O.told outside.old) (and_then (λ kind s. at_live kind self.old.moment connection what s) (λ kind s. takes_waiting kind self.old.moment s)) self.old
            → Rested (scene_of_live (O.told outside.old) self.old) → RestingOr run (O.told outside.new) self.new result }
    {
        let desk = &mut self.desk;
        let Some(place) = self.links.place_of(connection) else {
            desk.tell_gone(connection)?;
            return self.links.take_waiting(when, desk, outside);
        };
        self.links.occur(place, event, when, desk, outside)?;
        self.links.take_at(place, when, desk, outside)
    }

    // Nothing more is accepted, and all connections are released.
    fn drain<O: Journal>(&mut self, when: &When, outside: &mut O) -> Result<(), LoopFault>
        ensures drains { (run : ServiceRun) (rest : ToDo) → when.now.moment ≡ self.old.moment
            → Living run (O.told outside.old) (and_then (λ kind s. reads_line kind self.old.moment (Asks Drain) s) rest) self.old
            → is_attached (attendance_of self.old.desk.port) ≡ true → LivingOr run (O.told outside.new) rest self.new result }
        ensures moment { self.new.moment ≡ self.old.moment }
    {
        self.draining = true;
        self.links.release_all(when, &mut self.desk, outside)
    }

    // The entries of a key file are used by set-ups from now on.
    fn change_keys(&mut self, store: KeyStore) -> Result<(), LoopFault>
        ensures uses { OnOk result (UsesKeys store self.old self.new) }
        ensures moment { self.new.moment ≡ self.old.moment }
    {
        let entries = store.held_at(self.moment.get()) as u64;
        self.keys = ServiceKeys::File(store);
        self.desk.port.tell(&Notice::Keys { entries })?;
        Ok(())
    }

    // The octets of the key file, which may be refused: then the entries stay what they were.
    fn read_keys(&mut self, alloc: Global, octets: &[u8]) -> Result<(), LoopFault>
        ensures reads { OnOk result (ReadsFile octets.now self.old self.new) }
        ensures moment { self.new.moment ≡ self.old.moment }
    {
        match KeyStore::from_bytes(alloc, octets) {
            Ok(store) => self.change_keys(store),
            Err(fault) => Ok(tell_key_fault(alloc, fault, &mut self.desk.port)?),
        }
    }

    // The key file is fetched and read again.
    fn fetch_keys<O: Journal>(
        &mut self,
        alloc: Global,
        key_file: &str,
        outside: &mut O,
    ) -> Result<(), LoopFault>
        ensures fetches { (run : ServiceRun) → Living run (O.told outside.old) (fetch_then self.old.moment) self.old
            → Rested (scene_of_live (O.told outside.old) self.old) → LivingOr run (O.told outside.new) (λ kind s. takes_waiting kind self.old.moment s) self.new result }
        ensures moment { self.new.moment ≡ self.old.moment }
    {
        match outside.fetch(alloc, key_file) {
            Ok(octets) => self.read_keys(alloc, octets.as_slice()),
            Err(FetchFault::Failed) => Ok(tell_no_key_file(&mut self.desk.port)?),
            Err(FetchFault::NoMemory(want)) => Err(LoopFault::NoMemory(want)),
        }
    }

    // What a line asks for is done, and behind it the messages that wait are taken.
    fn do_request<O: Journal>(
        &mut self,
        alloc: Global,
        request: Request,
        plan: &ServicePlan<'_>,
        outside: &mut O,
    ) -> Result<(), LoopFault>
        requires { IsRequestInRange request }
        ensures does { (run : ServiceRun)
            → Living run (O.told outside.old) (and_then (λ kind s. reads_line kind self.old.moment (Asks request) s) (λ kind s. takes_waiting kind self.old.moment s)) self.old
            → Rested (scene_of_live (O.told outside.old) self.old) → is_attached (attendance_of self.old.desk.port) ≡ true
            → RestingOr run (O.told outside.new) self.new result }
    {
        let when = self.when(plan);
        match request {
            Request::Send { connection, text } => {
                let event = SessionEvent::Send(text.as_slice());
                return self.occur_at(connection, &event, &when, outside);
            }
            Request::Release { connection, sub } => {
                return self.occur_at(connection, &SessionEvent::Release(sub), &when, outside);
            }
            Request::Drain => self.drain(&when, outside)?,
            Request::Keys => self.fetch_keys(alloc, plan.key_file, outside)?,
            Request::Counts => self.desk.tell_counts(self.links.len())?,
        }
        self.links.take_waiting(&when, &mut self.desk, outside)
    }

    // A line of the application is answered, and behind it the messages that wait are taken.
    pub(crate) fn answer_line<O: Journal>(
        &mut self,
        alloc: Global,
        line: ApplicationLine,
        plan: &ServicePlan<'_>,
        outside: &mut O,
    ) -> Result<(), LoopFault>
        requires { IsApplicationLineInRange line }
        ensures answers { (run : ServiceRun) → Living run (O.told outside.old) (and_then (λ kind s. reads_line kind self.old.moment line s) (λ kind s. takes_waiting kind self.old.moment s)) self.old
            → Rested (scene_of_live (O.told outside.old) self.old) → is_attached (attendance_of self.old.desk.port) ≡ true
            → RestingOr run (O.told outside.new) self.new result }
    {
        match line {
            ApplicationLine::Asks(request) => self.do_request(alloc, request, plan, outside),
            ApplicationLine::Faulty { line, why } => {
                self.desk.port.tell(&Notice::Fault { line, why })?;
                let when = self.when(plan);
                self.links.take_waiting(&when, &mut self.desk, outside)
            }
        }
    }
}
