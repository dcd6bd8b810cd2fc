//! What the definitions of this crate imply of one call, as facts that a caller can cite.

ghost use Rattle.hdlc_station_model.specs.Reports.{ReleasesAreTold, FinishKeepsRelease};
ghost use Rattle.hdlc_station_model.specs.Causes.{CauseReleases, ReleasesOnly, OthersTellNone};
ghost use Rattle.hdlc_station_model.specs.LastFrames.{LastFrames};
ghost use Rattle.hdlc_station_model.specs.Timing.{LateExactly, TimersStop};
ghost use Rattle.hdlc_station_model.specs.Laws.{ReceivesGive, TicksGive, HandsKeep, OthersKeep, ReleasedAreInert};

use hdlc_frames::laws::control_is_table;

/// A frame that comes leaves what was handed down alone, the payload that is told is the one that is taken, and a release
/// is for a frame error (1.3) or the peer's DISC, DM or FRMR (1.4).
pub fn receives_give()
    ensures { ReceivesGive }
{}

/// Time takes no payload, and a release is 1.1 or 1.2.
pub fn ticks_give()
    ensures { TicksGive }
{}

/// What the other calls do to the payloads: one that is handed down stands behind the others.
pub fn others_keep()
    ensures hands { HandsKeep }
    ensures others { OthersKeep }
{}

/// After a release no call does anything.
pub fn released_are_inert()
    ensures { ReleasedAreInert }
{}

/// The release that a call tells is kept, and the station is Down exactly where it was or one is told.
pub fn releases_are_told()
    ensures calls { ReleasesAreTold }
    ensures finish { FinishKeepsRelease }
{}

/// A moment finds T1 expired exactly where T1 runs and its moment has come.
pub fn late_exactly()
    ensures { LateExactly }
{}

/// No timer runs in a station that is Down, behind whatever calls.
pub fn timers_stop()
    ensures { TimersStop }
{}

/// A station releases exactly where a cause is met and for that cause: 1.1 and 1.2 for time, 1.3 and 1.4 for a frame that comes. No
/// other call tells a release but a close by the own user, 0.x.
pub fn releases_have_causes()
    ensures each { CauseReleases }
    ensures only { ReleasesOnly }
    ensures others { OthersTellNone }
{
    control_is_table();
}

/// The last frame of a station: DM at 1.3, UA to a DISC and nothing to DM and FRMR at 1.4, DISC at 1.1 and 1.2; DISC at a close where the
/// link was asked for or is up, else none.
pub fn last_frames()
    ensures { LastFrames }
{
    control_is_table();
}
