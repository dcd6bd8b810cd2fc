//! An end of levels link and link-sr: a station, the deframer of what comes to it, and what it tells of each event.

ghost use Rattle.std.specs.Prelude.{ℕ, ◌≡◌, ◌<◌, ◌≤◌, ◌==◌, ◌*◌, [], List, length, take, Bool, true, false, IfOk, OnOk};
ghost use Rattle.hdlc_station_model.specs.Stations.{Station as AnyStation};
ghost use Rattle.hdlc_station_model.specs.Reports.{newer};
ghost use Rattle.drill_model.specs.StationEnds.{station_start, station_send, station_release, station_tick};
ghost use Rattle.drill_model.specs.Ends.{station_end_step};
ghost use Rattle.drill_ends.specs.StationPlans.{made_by};
ghost use Rattle.drill_ends.specs.Events.{event_of};
ghost use Rattle.drill_ends.specs.KeptStations.{StandsStation};
ghost use Rattle.drill_ends.specs.StationEnds.{StationDoes, StationReads, StationWent};

use crate::end_event::EndEvent;
use crate::payload::Payload;
use crate::refusal::Refusal;
use crate::station_plan::StationPlan;
use crate::telling_station::TellingStation;
use crate::told::Told;
use er_base::{Moment, NoMemory, Release};
use hdlc_frames::Deframer;
use std::alloc::Global;
use std::collections::VecDeque;

/// A station, the deframer of all that comes to it, and why the station was released, once it was.
#[derive(Drop)]
pub struct StationEnd {
    station: TellingStation,
    deframer: Deframer,
    released: Option<Release>,
}

/// The release that was told now, or else the one before.
fn newer(told: Option<Release>, before: Option<Release>) -> Option<Release>
    ensures { result ≡ newer told before }
{
    match told {
        Some(release) => Some(release),
        None => before,
    }
}

impl StationEnd {
    /// The calling station of a link, or the called one.
    pub fn new(alloc: Global, calling: bool, plan: &StationPlan) -> Result<StationEnd, NoMemory>
        ensures { IfOk result (λ k. StandsStation k plan.now.selective (made_by calling plan.now.settings) []) }
    {
        Ok(StationEnd {
            station: TellingStation::new(alloc, calling, plan)?,
            deframer: Deframer::new(),
            released: None,
        })
    }

    /// A calling station begins the set-up.
    fn start(
        &mut self,
        alloc: Global,
        now: Moment,
        told: &mut VecDeque<Told>,
    ) -> Result<(), NoMemory>
        ensures { OnOk result (StationDoes self.old self.new told.old.items told.new.items (station_start now)) }
    {
        hdlc_station_model::laws::releases_are_told();
        self.station.start(alloc, now, told)
    }

    /// Octets come, up to and with the first flag that closes a frame in them; that frame is one event. Answers how many octets these are.
    fn receive_one(
        &mut self,
        alloc: Global,
        now: Moment,
        octets: &[u8],
        told: &mut VecDeque<Told>,
    ) -> Result<usize, NoMemory>
        ensures reads { IfOk result (λ used. StationReads now self.old (take used octets.now) self.new told.old.items told.new.items) }
        ensures within { IfOk result (λ used. used ≤ length octets.now) }
        ensures moves { IfOk result (λ used. 0 < length octets.now → 0 < used) }
    {
        hdlc_station_model::laws::releases_are_told();
        hdlc_pair_laws::laws::frames_give();
        hdlc_frames::laws::goes_on();
        let (used, found) = self.deframer.feed(octets);
        let Some(found) = found else {
            return Ok(used);
        };
        let released = self.station.hear(alloc, now, &found, told)?;
        self.released = newer(released, self.released);
        Ok(used)
    }

    /// Octets come, in which any number of frames close.
    fn receive(
        &mut self,
        alloc: Global,
        now: Moment,
        octets: &[u8],
        told: &mut VecDeque<Told>,
    ) -> Result<(), NoMemory>
        ensures { OnOk result (StationReads now self.old octets.now self.new told.old.items told.new.items) }
    {
        hdlc_frames::laws::kept_stands_for_stream();
        let mut rest = octets;
        while !rest.is_empty() {
            let used = self.receive_one(alloc, now, rest, told)?;
            let (_, others) = rest.split_at(used);
            rest = others;
        }
        Ok(())
    }

    /// The user sends a payload.
    fn send(
        &mut self,
        alloc: Global,
        now: Moment,
        payload: &[u8],
        told: &mut VecDeque<Told>,
    ) -> Result<(), NoMemory>
        ensures { OnOk result (StationDoes self.old self.new told.old.items told.new.items (station_send now payload.now)) }
    {
        hdlc_station_model::laws::releases_are_told();
        hdlc_station_model::laws::others_keep();
        if let Some(release) = self.released {
            told.push_back(Told::Refused(Refusal::Released(release)))?;
            return Ok(());
        }
        let Some(payload) = Payload::of(payload) else {
            told.push_back(Told::Refused(Refusal::Length(payload.len())))?;
            return Ok(());
        };
        self.station.hand(alloc, now, &payload, told)
    }

    /// The user releases. Where the station was released before, nothing happens.
    fn release(&mut self, alloc: Global, sub: u8, told: &mut VecDeque<Told>) -> Result<(), NoMemory>
        ensures { OnOk result (StationDoes self.old self.new told.old.items told.new.items (station_release sub)) }
    {
        if self.released.is_some() {
            return Ok(());
        }
        let release = self.station.quit(alloc, sub, told)?;
        self.released = Some(release);
        Ok(())
    }

    /// The moment has come.
    fn tick(
        &mut self,
        alloc: Global,
        now: Moment,
        told: &mut VecDeque<Told>,
    ) -> Result<(), NoMemory>
        ensures { OnOk result (StationDoes self.old self.new told.old.items told.new.items (station_tick now)) }
    {
        hdlc_station_model::laws::releases_are_told();
        let released = self.station.tick(alloc, now, told)?;
        self.released = newer(released, self.released);
        Ok(())
    }

    /// An event at a station, at a moment; appends what the station did, in its order. A station has no messages to take.
    fn tell(
        &mut self,
        alloc: Global,
        now: Moment,
        event: &EndEvent,
        told: &mut VecDeque<Told>,
    ) -> Result<(), NoMemory>
        ensures { OnOk result ((selective : Bool) (s : AnyStation) (stream : List ℕ) → StandsStation self.old selective s stream
            → StationWent self.new told.old.items told.new.items (station_end_step selective now s stream (event_of event.now))) }
    {
        match event {
            EndEvent::Start => self.start(alloc, now, told),
            EndEvent::Receive(octets) => self.receive(alloc, now, octets, told),
            EndEvent::Send(payload) => self.send(alloc, now, payload, told),
            EndEvent::Take => Ok(()),
            EndEvent::Release(sub) => self.release(alloc, *sub, told),
            EndEvent::Tick => self.tick(alloc, now, told),
        }
    }

    /// An event at a station, at a moment; answers what the station did, in its order.
    pub fn answer(
        &mut self,
        alloc: Global,
        now: Moment,
        event: &EndEvent,
    ) -> Result<VecDeque<Told>, NoMemory>
        ensures { IfOk result (λ told. (selective : Bool) (s : AnyStation) (stream : List ℕ) → StandsStation self.old selective s stream
            → StationWent self.new [] told.items (station_end_step selective now s stream (event_of event.now))) }
    {
        let mut told = VecDeque::new(alloc);
        self.tell(alloc, now, event, &mut told)?;
        Ok(told)
    }
}
