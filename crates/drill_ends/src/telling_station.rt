//! A station whose calls tell what they did.

ghost use Rattle.std.specs.Prelude.{◌≡◌, ◌≤◌, Bool, None, Some, IfOk, OnOk};
ghost use Rattle.hdlc_frames.specs.Shown.{verdict_of_octets_found};
ghost use Rattle.hdlc_station_model.specs.Calls.{starts, finishes, ticks};
ghost use Rattle.hdlc_station_model.specs.Selective.{receives_as};
ghost use Rattle.hdlc_station_model.specs.Events.{quits};
ghost use Rattle.hdlc_station.specs.Held.{FitsPlace};
ghost use Rattle.hdlc_station.specs.Stations.{IsKeptOf, most_answers};
ghost use Rattle.drill_model.specs.StationEnds.{payload_refusal_of_station, handed_unless};
ghost use Rattle.drill_ends.specs.StationPlans.{made_by};
ghost use Rattle.drill_ends.specs.StationEnds.{CallDoes, CallTells};

use crate::payload::Payload;
use crate::refusal::Refusal;
use crate::station_plan::StationPlan;
use crate::telling::{tell_arrived, tell_frames, tell_more, tell_released, tell_up};
use crate::told::Told;
use er_base::{Cause, Moment, NoMemory, Release, Room};
use hdlc_frames::Found;
use hdlc_station::Station;
use std::alloc::Global;
use std::collections::VecDeque;
use std::marker::Model;

/// The most octets of a frame on the line.
const FRAME_OCTETS: usize = 2064;

/// The most frames of an event beside those that answer a frame.
const MORE_FRAMES: usize = 2;

/// A station, and room for the frames of one event. In contracts it is the station.
#[derive(Drop)]
pub struct TellingStation {
    station: Station,
    room: Room,
}

impl Model for TellingStation {
    ghost use Rattle.std.specs.Prelude.{◌≡◌, ◌+◌, ◌*◌};
    ghost use Rattle.hdlc_station.specs.Stations.{StationKept, is_selective, most_answers};

    ghost Value = { StationKept };

    ghost view = { λ t. t.station };

    ghost invariant = { λ t. t.room.capacity ≡ (most_answers (is_selective t.station) t.station.core.window + 2) * 2064 };
}

/// The most frames of an answer to a frame.
fn most_answers(selective: bool, window: u8) -> usize
    ensures value { result ≡ most_answers selective window }
    ensures few { result ≤ 510 }
{
    if selective {
        2 * window as usize
    } else {
        window as usize + 1
    }
}

impl TellingStation {
    /// The calling station of a link, or the called one.
    pub fn new(alloc: Global, calling: bool, plan: &StationPlan) -> Result<TellingStation, NoMemory>
        ensures { IfOk result (λ k. IsKeptOf k plan.now.selective (made_by calling plan.now.settings)) }
    {
        let settings = &plan.settings;
        let reject = plan.reject();
        let station = if calling {
            Station::calling(alloc, settings, reject)?
        } else {
            Station::called(alloc, settings, reject)?
        };
        let most = most_answers(plan.selective, settings.window);
        let room = Room::with_capacity(alloc, (most + MORE_FRAMES) * FRAME_OCTETS)?;
        Ok(TellingStation { station, room })
    }

    /// A calling station begins the set-up.
    pub fn start(
        &mut self,
        alloc: Global,
        now: Moment,
        told: &mut VecDeque<Told>,
    ) -> Result<(), NoMemory>
        ensures { OnOk result ((selective : Bool) → CallTells selective self.old self.new told.old.items told.new.items None (λ s. finishes (starts now s))) }
    {
        self.room.clear();
        self.station.start(now, &mut self.room);
        self.station.finish(&mut self.room);
        tell_frames(alloc, self.room.held(), told)
    }

    /// What a deframer found comes in, and the answer that is owed follows. Answers why the station was released, where it was.
    pub fn hear(
        &mut self,
        alloc: Global,
        now: Moment,
        found: &Found,
        told: &mut VecDeque<Told>,
    ) -> Result<Option<Release>, NoMemory>
        requires { FitsPlace (verdict_of_octets_found found.now) }
        ensures { IfOk result (λ released. (selective : Bool) → CallTells selective self.old self.new told.old.items told.new.items released
            (λ s. finishes (receives_as selective now (verdict_of_octets_found found.now) s))) }
    {
        hdlc_station::laws::either_kind();
        self.room.clear();
        let deed = self.station.receive(now, found, &mut self.room);
        self.station.finish(&mut self.room);
        tell_up(deed.up, told)?;
        tell_arrived(alloc, &deed, told)?;
        tell_more(alloc, &self.station, deed.more, told)?;
        tell_released(deed.released, told)?;
        tell_frames(alloc, self.room.held(), told)?;
        Ok(deed.released)
    }

    /// The user's payload is handed down, unless too many wait.
    pub fn hand(
        &mut self,
        alloc: Global,
        now: Moment,
        payload: &Payload<'_>,
        told: &mut VecDeque<Told>,
    ) -> Result<(), NoMemory>
        ensures { OnOk result ((selective : Bool) → CallDoes selective self.old self.new told.old.items told.new.items
            (λ s. handed_unless (payload_refusal_of_station s payload.now None) now payload.now s)) }
    {
        hdlc_station::laws::either_kind();
        self.room.clear();
        if let Err(full) = self.station.hand(now, payload.octets(), &mut self.room) {
            told.push_back(Told::Refused(Refusal::Full(full.waiting)))?;
            return Ok(());
        }
        self.station.finish(&mut self.room);
        tell_frames(alloc, self.room.held(), told)
    }

    /// The user releases, with a sub-reason.
    pub fn quit(
        &mut self,
        alloc: Global,
        sub: u8,
        told: &mut VecDeque<Told>,
    ) -> Result<Release, NoMemory>
        ensures { IfOk result (λ release. (selective : Bool) → CallTells selective self.old self.new told.old.items told.new.items (Some release) (quits sub)) }
    {
        self.room.clear();
        let release = Cause::User { sub }.release();
        told.push_back(Told::Released(release))?;
        self.station.close(&mut self.room);
        tell_frames(alloc, self.room.held(), told)?;
        Ok(release)
    }

    /// The moment has come. Answers why the station was released, where it was.
    pub fn tick(
        &mut self,
        alloc: Global,
        now: Moment,
        told: &mut VecDeque<Told>,
    ) -> Result<Option<Release>, NoMemory>
        ensures { IfOk result (λ released. (selective : Bool) → CallTells selective self.old self.new told.old.items told.new.items released
            (λ s. finishes (ticks now s))) }
    {
        hdlc_station::laws::either_kind();
        self.room.clear();
        let released = self.station.tick(now, &mut self.room);
        self.station.finish(&mut self.room);
        tell_released(released, told)?;
        tell_frames(alloc, self.room.held(), told)?;
        Ok(released)
    }
}
