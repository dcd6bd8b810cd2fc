//! What a call of a station tells.

ghost use Rattle.std.specs.Prelude.{◌≡◌};
ghost use Rattle.hdlc_station_model.specs.Stations.{no_deed};

use crate::heard::Told;
use er_base::Release;

/// A payload that wasn't handed down, since 16 wait.
#[derive(Clone, Copy, Debug, PartialEq, Eq)]
pub struct Full {
    /// The number of payloads that wait to be sent for the first time: 16.
    pub waiting: usize,
}

/// What a frame that came brought.
#[derive(Clone, Copy, Debug, PartialEq, Eq)]
pub struct LinkDeed<'f> {
    /// Whether the link came up.
    pub up: bool,
    /// The payload of an I frame that was taken.
    pub payload: Option<&'f [u8]>,
    /// How many payloads were taken behind that one, which were held: [`Station::payload`](crate::Station::payload) lends them. None with go-back.
    pub more: usize,
    /// Why the station was released, where it was.
    pub released: Option<Release>,
}

impl<'f> LinkDeed<'f> {
    ghost use Rattle.hdlc_station.specs.Told.{deed_of, told_as};

    // Nothing was told.
    pub(crate) fn nothing() -> LinkDeed<'f>
        ensures deed { deed_of result ≡ no_deed }
        ensures none { result.more ≡ 0 }
    {
        LinkDeed {
            up: false,
            payload: None,
            more: 0,
            released: None,
        }
    }

    // What a rule told of a frame with this information, and how many payloads that were held it took.
    pub(crate) fn of(told: Told, information: &'f [u8], more: usize) -> LinkDeed<'f>
        ensures deed { deed_of result ≡ told_as information.now told }
        ensures more { result.more ≡ more }
    {
        match told {
            Told::Nothing => LinkDeed {
                up: false,
                payload: None,
                more,
                released: None,
            },
            Told::CameUp => LinkDeed {
                up: true,
                payload: None,
                more,
                released: None,
            },
            Told::Took => LinkDeed {
                up: false,
                payload: Some(information),
                more,
                released: None,
            },
            Told::Released { release } => LinkDeed {
                up: false,
                payload: None,
                more,
                released: Some(release),
            },
        }
    }
}
