//! A station as it is measured, of either kind.

ghost use Rattle.std.specs.Prelude.{◌+◌, ◌*◌, ◌≤◌, ◌≡◌, true};
ghost use Rattle.er_base.specs.Stored.{HasRoom};
ghost use Rattle.hdlc_frames.specs.Shown.{verdict_of_octets_found};
ghost use Rattle.hdlc_station.specs.Held.{FitsPlace};
ghost use Rattle.hdlc_station.specs.Stations.{is_selective_reject};

use er_base::{Moment, NoMemory, Room};
use er_settings::Settings;
use er_settings::laws::allowed_are_bounded;
use hdlc_frames::Found;
use hdlc_station::{Reject, Station};
use std::alloc::Global;

/// The octets of room that a call of a station wants at the most: 62 frames, twice the greatest window, and two.
pub const ROOM: usize = 64 * 2064;

/// A station. A call does nothing where `out` has less than [`ROOM`] free. Moments above the greatest are all the greatest.
#[derive(Drop)]
pub struct Measured {
    station: Station,
    ghost small: { station.core.window ≤ 31 },
}

// Whether a place has room for it: of what a deframer finds, for all.
fn fits(found: &Found<'_>) -> bool
    ensures { result ≡ true → FitsPlace (verdict_of_octets_found found.now) }
{
    match found {
        Found::Frame(frame) => frame.body.len() <= 1032,
        Found::BadFcs => true,
        Found::TooShort => true,
        Found::TooLong => true,
        Found::Aborted => true,
    }
}

impl Measured {
    /// The calling station.
    pub fn calling(alloc: Global, settings: &Settings, reject: Reject) -> Result<Measured, NoMemory>
        requires half { is_selective_reject reject ≡ true → 2 * settings.now.window ≤ settings.now.modulo }
    {
        // a field that is read tells that the settings are in their ranges
        let _ = &settings.window;
        allowed_are_bounded();
        let station = Station::calling(alloc, settings, reject)?;
        Ok(Measured { station })
    }

    /// The called station.
    pub fn called(alloc: Global, settings: &Settings, reject: Reject) -> Result<Measured, NoMemory>
        requires half { is_selective_reject reject ≡ true → 2 * settings.now.window ≤ settings.now.modulo }
    {
        // a field that is read tells that the settings are in their ranges
        let _ = &settings.window;
        allowed_are_bounded();
        let station = Station::called(alloc, settings, reject)?;
        Ok(Measured { station })
    }

    /// Starts the set-up.
    pub fn start(&mut self, out: &mut Room) {
        if out.free() >= ROOM {
            self.station.start(Moment::new(0), out);
        }
    }

    /// Hands a payload down where the window has room for it. Answers whether it had.
    pub fn hand(&mut self, now: u64, payload: &[u8], out: &mut Room) -> bool {
        if payload.len() > 1026 || out.free() < ROOM || !self.station.may_send() {
            return false;
        }
        self.station.hand(Moment::capped(now), payload, out).is_ok()
    }

    /// Hears what a deframer found, and answers what is owed for it. Answers how many payloads were taken.
    pub fn hear(&mut self, now: u64, found: &Found<'_>, out: &mut Room) -> u64 {
        if out.free() < ROOM || !fits(found) {
            return 0;
        }
        hdlc_station::laws::either_kind();
        let deed = self.station.receive(Moment::capped(now), found, out);
        if out.free() >= ROOM {
            self.station.finish(out);
        }
        (deed.more as u64).saturating_add(deed.payload.is_some() as u64)
    }

    /// Lets time go on.
    pub fn tick(&mut self, now: u64, out: &mut Room) {
        if out.free() >= ROOM {
            let _ = self.station.tick(Moment::capped(now), out);
        }
    }
}
