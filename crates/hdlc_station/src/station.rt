//! The station and its calls.

ghost use Rattle.std.specs.Prelude.{◌≡◌, ◌+◌, ◌-◌, ◌*◌, ◌<◌, ◌≤◌, ◌==◌, [], ◌∷◌, ◌++◌, length, slice_index_or, IfOk, IfErr, true, false};
ghost use Rattle.er_base.specs.Stored.{Stored, HasRoom};
ghost use Rattle.hdlc_frames.specs.Shown.{verdict_of_octets_found};
ghost use Rattle.hdlc_station_model.specs.Stations.{made, no_deed};
ghost use Rattle.hdlc_station_model.specs.Sending.{waiting};
ghost use Rattle.hdlc_station_model.specs.Calls.{starts, receives, hands, finishes, ticks, closes, may_send, deadline};
ghost use Rattle.hdlc_station_model.specs.Selective.{receives_as};

use crate::deeds::{Full, LinkDeed};
use crate::payload::Payload;
use crate::places::Places;
use crate::reject::Reject;
use crate::station_core::StationCore;
use crate::{go_back, selective};
use er_base::{Moment, NoMemory, Release, Room};
use er_settings::Settings;
use er_settings::laws::allowed_are_bounded;
use hdlc_frames::Found;
use hdlc_station_model::Counts;
use std::alloc::Global;
use std::marker::Model;

/// A combined station. It is made by [`Station::calling`] or [`Station::called`]; after a release no call does anything.
#[derive(Drop)]
pub struct Station {
    core: StationCore,
    // with selective reject: the frames behind a gap
    places: Option<Places>,
    // how many payloads that were held the last receive took
    more: usize,
}

impl Model for Station {
    ghost use Rattle.hdlc_station.specs.Stations.{StationKept, IsWhole};

    ghost Value = { StationKept };

    ghost view = { λ s. record { core = s.core; places = s.places; more = s.more } };

    ghost invariant = { λ s. IsWhole s.places s.core.window s.more };
}

impl Station {
    ghost use Rattle.hdlc_station.specs.Kept.{Shown, WritesFramesAtMost};
    ghost use Rattle.hdlc_station.specs.Stations.{is_selective_reject, is_selective, IsKeptOf, lent_by, FollowsStep, TellsStep, HasPlace, most_answers};
    ghost use Rattle.hdlc_station.specs.Told.{deed_of, deed_with, released_as};
    ghost use Rattle.hdlc_station.specs.Alike.{model_of, DoesStationCall};

    /// The calling station of a link.
    pub fn calling(alloc: Global, settings: &Settings, reject: Reject) -> Result<Station, NoMemory>
        requires half { is_selective_reject reject ≡ true → 2 * settings.now.window ≤ settings.now.modulo }
        ensures kept { IfOk result (λ k. IsKeptOf k (is_selective_reject reject) (made true (settings.now.modulo == 128) settings.now.window settings.now.n2 settings.now.t1)) }
        ensures none { IfOk result (λ k. k.more ≡ 0) }
    {
        Station::new(alloc, true, settings, reject)
    }

    /// The called station of a link.
    pub fn called(alloc: Global, settings: &Settings, reject: Reject) -> Result<Station, NoMemory>
        requires half { is_selective_reject reject ≡ true → 2 * settings.now.window ≤ settings.now.modulo }
        ensures kept { IfOk result (λ k. IsKeptOf k (is_selective_reject reject) (made false (settings.now.modulo == 128) settings.now.window settings.now.n2 settings.now.t1)) }
        ensures none { IfOk result (λ k. k.more ≡ 0) }
    {
        Station::new(alloc, false, settings, reject)
    }

    // A station that was just made.
    fn new(
        alloc: Global,
        calling: bool,
        settings: &Settings,
        reject: Reject,
    ) -> Result<Station, NoMemory>
        ensures kept { IfOk result (λ k. IsKeptOf k (is_selective_reject reject) (made calling (settings.now.modulo == 128) settings.now.window settings.now.n2 settings.now.t1)) }
        ensures none { IfOk result (λ k. k.more ≡ 0) }
    {
        allowed_are_bounded();
        let core = StationCore::new(alloc, calling, settings)?;
        match reject {
            Reject::GoBack => Ok(Station {
                core,
                places: None,
                more: 0,
            }),
            Reject::Selective => {
                let places = Places::new(alloc, settings.window as usize)?;
                Ok(Station {
                    core,
                    places: Some(places),
                    more: 0,
                })
            }
        }
    }

    /// A calling station that was just made sends the set-up frame, and T1 starts. Any other one, a called one or one that was started
    /// before, sends nothing and only sees the moment; one that was released does nothing at all. The call doesn't tell which it was.
    pub fn start(&mut self, now: Moment, out: &mut Room)
        requires { HasRoom out.old 2064 }
        ensures follows { FollowsStep self.old out.old self.new out.new (starts now) }
        ensures does { DoesStationCall self.new.core out.old out.new no_deed (starts now (model_of self.old.core)) }
        ensures within { WritesFramesAtMost self.old.core out.old self.new.core out.new 1 }
        ensures same { self.new ≡ record self.old { core = self.new.core } }
    {
        self.core.bounds();
        let reply = self.core.start(now);
        self.core.write(reply, out);
    }

    /// What a deframer found comes in: the station answers it, and then sends the payloads that may be sent. Those that were held and
    /// taken with it are lent by [`Station::payload`] until the next receive.
    pub fn receive<'f>(&mut self, now: Moment, found: &Found<'f>, out: &mut Room) -> LinkDeed<'f>
        requires fits { HasPlace (is_selective self.old) (verdict_of_octets_found found.now) }
        requires room { HasRoom out.old (most_answers (is_selective self.old) self.old.core.window * 2064) }
        ensures tells { TellsStep self.old out.old self.new out.new (deed_with (lent_by self.new.places result.more) result) (receives_as (is_selective self.old) now (verdict_of_octets_found found.now)) }
        ensures does { is_selective self.old ≡ false → DoesStationCall self.new.core out.old out.new (deed_of result) (receives now (verdict_of_octets_found found.now) (model_of self.old.core)) }
        ensures within { WritesFramesAtMost self.old.core out.old self.new.core out.new (most_answers (is_selective self.old) self.old.core.window) }
        ensures way { is_selective self.new ≡ is_selective self.old }
        ensures more { self.new.more ≡ result.more }
        ensures lends { length (lent_by self.new.places result.more) ≡ result.more }
    {
        self.core.bounds();
        match &mut self.places {
            Some(places) => {
                let deed = selective::receive(&mut self.core, places, now, found, out);
                self.more = deed.more;
                deed
            }
            None => {
                let deed = go_back::receive(&mut self.core, now, found, out);
                self.more = deed.more;
                deed
            }
        }
    }

    /// Lends payload k, from 0, of those that were held and that the last receive took, in order of their numbers.
    pub fn payload(&self, k: usize) -> &[u8]
        requires { k < self.now.more }
        ensures { result.now ≡ slice_index_or (lent_by self.now.places self.now.more) k [] }
    {
        match &self.places {
            Some(places) => places.payload(places.len() - self.more + k),
            None => &[],
        }
    }

    /// A payload of up to 1,026 octets is handed down, to be sent as soon as it may. Full, exactly where 16 payloads wait to
    /// be sent for the first time; then nothing changes. A station that was released keeps none and sends none, and answers Ok all
    /// the same where fewer than 16 wait: whoever calls remembers the release that it was told, and that it closed the station.
    pub fn hand(&mut self, now: Moment, payload: &[u8], out: &mut Room) -> Result<(), Full>
        requires fits { length payload.now ≤ 1026 }
        requires room { HasRoom out.old (self.old.core.window * 2064) }
        ensures handed { IfOk result (λ _. FollowsStep self.old out.old self.new out.new (hands now payload.now)) }
        ensures does { IfOk result (λ _. DoesStationCall self.new.core out.old out.new no_deed (hands now payload.now (model_of self.old.core))) }
        ensures not_full { IfOk result (λ _. Shown self.old.core (λ s. waiting s < 16)) }
        ensures full { IfErr result (λ full. Shown self.old.core (λ s. (waiting s ≡ 16) × (full.waiting ≡ 16))) }
        ensures unchanged { IfErr result (λ full. self.new ≡ self.old) }
        ensures unwritten { IfErr result (λ full. out.new ≡ out.old) }
        ensures within { WritesFramesAtMost self.old.core out.old self.new.core out.new self.old.core.window }
        ensures waited { IfErr result (λ full. length self.old.core.ring ≡ self.old.core.ahead + 16) }
        ensures grows { self.old.core.ahead ≤ self.new.core.ahead }
        ensures sent { length out.new.items + self.old.core.ahead * 2064 ≤ length out.old.items + self.new.core.ahead * 2064 }
        ensures same { self.new ≡ record self.old { core = self.new.core } }
    {
        self.core.bounds();
        self.core.hand(now, &Payload::new(payload), out)
    }

    /// Sends the answer that is still owed for I frames that were taken. It follows each event.
    pub fn finish(&mut self, out: &mut Room)
        requires { HasRoom out.old 2064 }
        ensures follows { FollowsStep self.old out.old self.new out.new finishes }
        ensures does { DoesStationCall self.new.core out.old out.new no_deed (finishes (model_of self.old.core)) }
        ensures within { WritesFramesAtMost self.old.core out.old self.new.core out.new 1 }
        ensures same { self.new ≡ record self.old { core = self.new.core } }
    {
        self.core.bounds();
        let reply = self.core.finish();
        self.core.write(reply, out);
    }

    /// It is this moment: T1 may expire, at most once. Answers why the station was released, where it was.
    pub fn tick(&mut self, now: Moment, out: &mut Room) -> Option<Release>
        requires { HasRoom out.old ((self.old.core.window + 1) * 2064) }
        ensures tells { TellsStep self.old out.old self.new out.new (released_as result) (ticks now) }
        ensures does { DoesStationCall self.new.core out.old out.new (released_as result) (ticks now (model_of self.old.core)) }
        ensures within { WritesFramesAtMost self.old.core out.old self.new.core out.new (self.old.core.window + 1) }
        ensures same { self.new ≡ record self.old { core = self.new.core } }
    {
        self.core.bounds();
        self.core.tick(now, out)
    }

    /// The layer above ends the link: DISC where it was being set up or is up, and the station is Down. It tells no release:
    /// that is the caller's own.
    pub fn close(&mut self, out: &mut Room)
        requires { HasRoom out.old 2064 }
        ensures follows { FollowsStep self.old out.old self.new out.new closes }
        ensures does { DoesStationCall self.new.core out.old out.new no_deed (closes (model_of self.old.core)) }
        ensures within { WritesFramesAtMost self.old.core out.old self.new.core out.new 1 }
        ensures same { self.new ≡ record self.old { core = self.new.core } }
    {
        self.core.bounds();
        let reply = self.core.close();
        self.core.write(reply, out);
    }

    /// The moment at which the station wants a tick: that at which T1 expires, where T1 runs.
    pub fn deadline(&self) -> Option<u64>
        ensures shown { Shown self.now.core (λ s. result ≡ deadline s) }
        ensures kept { result ≡ self.now.core.timer }
    {
        self.core.deadline()
    }

    /// The number of payloads that wait to be sent for the first time, 16 at the most.
    pub fn waiting(&self) -> usize
        ensures shown { Shown self.now.core (λ s. result ≡ waiting s) }
        ensures few { result ≤ 16 }
        ensures kept { result + self.now.core.ahead ≡ length self.now.core.ring }
    {
        self.core.waiting()
    }

    /// Whether a payload that is handed down now is sent at once.
    pub fn may_send(&self) -> bool
        ensures shown { Shown self.now.core (λ s. result ≡ may_send s) }
        ensures kept { result ≡ may_send (model_of self.now.core) }
        ensures free { result ≡ true → length self.now.core.ring ≡ self.now.core.ahead }
    {
        self.core.bounds();
        self.core.may_send()
    }

    /// The frames that were ignored so far, by their kind.
    pub fn counts(&self) -> Counts
        ensures shown { Shown self.now.core (λ s. result ≡ s.counts) }
        ensures kept { result ≡ self.now.core.counts }
    {
        self.core.counts()
    }
}
