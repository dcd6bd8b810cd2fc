//! The link layer of an end, with what it writes to the line.

ghost use Rattle.std.specs.Prelude.{◌≡◌, ◌≤◌, ◌==◌, [], length, true, IfOk};
ghost use Rattle.hdlc_frames.specs.Shown.{verdict_of_octets_found};
ghost use Rattle.hdlc_station.specs.Kept.{kept_of};
ghost use Rattle.hdlc_station.specs.Told.{deed_of};
ghost use Rattle.hdlc_station_model.specs.Stations.{made};
ghost use Rattle.er_end.specs.KeptLayers.{line_starts, line_receives, line_told, line_hands, line_finishes, line_ticks, line_given_up, line_closes, line_may_send, line_is_free};

use er_base::{Moment, NoMemory, Release, Room};
use er_settings::Settings;
use er_settings::laws::allowed_are_bounded;
use hdlc_frames::Found;
use hdlc_station::{LinkDeed, Reject, Station};
use hdlc_station_model::Counts;
use std::alloc::Global;
use std::marker::Model;

// Room for three windows of 31 frames and four frames, each of at most 2,064 octets: what comes of one event.
const OUT: usize = 200_208;

/// A station, and the octets that it sent in this event. With those that it may still send in it they always have room.
#[derive(Drop)]
pub struct Line {
    out: Room,
    station: Station,
}

impl Model for Line {
    ghost use Rattle.std.specs.Prelude.{◌≡◌, ◌≤◌, false};
    ghost use Rattle.hdlc_station.specs.Stations.{is_selective};
    ghost use Rattle.er_end.specs.KeptLayers.{KLine};
    ghost use Rattle.er_end.specs.FrameRoom.{FitsFrameRoom};

    ghost Value = { KLine };

    ghost view = { λ l. record { station = l.station.core; out = l.out.items } };

    ghost invariant = { λ l. (l.out.capacity ≡ 200208) × (l.station.core.window ≤ 31) × (l.station.core.ahead ≤ l.station.core.window) × FitsFrameRoom l.station.core l.out.items × (is_selective l.station ≡ false) };
}

impl Line {
    /// The calling station of a link, or the called one.
    #[inline(never)]
    pub fn new(alloc: Global, calling: bool, settings: &Settings) -> Result<Line, NoMemory>
        ensures { IfOk result (λ l. l ≡ record { station = kept_of (made calling (settings.now.modulo == 128) settings.now.window settings.now.n2 settings.now.t1); out = [] }) }
    {
        allowed_are_bounded();
        let _ = &settings.window;
        let station = if calling {
            Station::calling(alloc, settings, Reject::GoBack)?
        } else {
            Station::called(alloc, settings, Reject::GoBack)?
        };
        let out = Room::with_capacity(alloc, OUT)?;
        Ok(Line { station, out })
    }

    /// An event begins: nothing was sent in it yet.
    pub fn begin(&mut self)
        ensures { self.new ≡ record self.old { out = [] } }
    {
        self.out.clear();
    }

    /// An event begins in which the station is started.
    #[tactic(auto, unfolding(crate::specs::KeptLayers::line_starts))]
    pub fn start(&mut self, now: Moment)
        ensures { self.new ≡ line_starts now (record self.old { out = [] }) }
    {
        self.out.clear();
        self.station.start(now, &mut self.out);
    }

    /// An event begins in which what a deframer found comes.
    #[tactic(auto, unfolding(crate::specs::KeptLayers::line_receives, crate::specs::KeptLayers::line_told))]
    pub fn receive<'f>(&mut self, now: Moment, found: &Found<'f>) -> LinkDeed<'f>
        ensures line { self.new ≡ line_receives now (verdict_of_octets_found found.now) (record self.old { out = [] }) }
        ensures told { deed_of result ≡ line_told now (verdict_of_octets_found found.now) (record self.old { out = [] }) }
    {
        self.out.clear();
        self.station.receive(now, found, &mut self.out)
    }

    /// A payload is handed down, while none waits.
    #[tactic(auto, unfolding(crate::specs::KeptLayers::line_hands), using(crate::proofs::FrameRooms::hand_keeps))]
    pub fn hand(&mut self, now: Moment, payload: &[u8])
        requires fits { length payload.now ≤ 1026 }
        requires free { line_is_free self.old ≡ true }
        ensures { self.new ≡ line_hands now payload.now self.old }
    {
        let _handed = self.station.hand(now, payload, &mut self.out);
    }

    /// The answer that is still owed is sent.
    #[tactic(auto, unfolding(crate::specs::KeptLayers::line_finishes))]
    pub fn finish(&mut self)
        ensures { self.new ≡ line_finishes self.old }
    {
        self.station.finish(&mut self.out);
    }

    /// An event begins in which T1 may expire: why the station gives up, where it does.
    #[tactic(auto, unfolding(crate::specs::KeptLayers::line_ticks, crate::specs::KeptLayers::line_given_up))]
    pub fn tick(&mut self, now: Moment) -> Option<Release>
        ensures line { self.new ≡ line_ticks now (record self.old { out = [] }) }
        ensures given_up { result ≡ line_given_up now (record self.old { out = [] }) }
    {
        self.out.clear();
        self.station.tick(now, &mut self.out)
    }

    /// The link is ended.
    #[tactic(auto, unfolding(crate::specs::KeptLayers::line_closes))]
    pub fn close(&mut self)
        ensures { self.new ≡ line_closes self.old }
    {
        self.station.close(&mut self.out);
    }

    /// Whether no payload waits.
    pub fn is_free(&self) -> bool
        ensures { result ≡ line_is_free self.now }
    {
        self.station.waiting() == 0
    }

    /// Whether no payload waits, and one that is handed down now is sent at once.
    #[tactic(auto, unfolding(crate::specs::KeptLayers::line_may_send))]
    pub fn may_send(&self) -> bool
        ensures value { result ≡ line_may_send self.now }
        ensures free { result ≡ true → line_is_free self.now ≡ true }
    {
        self.station.may_send()
    }

    /// The moment at which T1 expires, where it runs.
    pub fn deadline(&self) -> Option<u64>
        ensures { result ≡ self.now.station.timer }
    {
        self.station.deadline()
    }

    /// The frames that were ignored so far, by their kind.
    pub fn counts(&self) -> Counts
        ensures { result ≡ self.now.station.counts }
    {
        self.station.counts()
    }

    /// Lends the octets that were sent in this event.
    pub fn out(&self) -> &[u8]
        ensures value { result.now ≡ self.now.out }
        ensures most { length result.now ≤ 134160 }
    {
        let _ = &self.station;
        self.out.held()
    }
}
