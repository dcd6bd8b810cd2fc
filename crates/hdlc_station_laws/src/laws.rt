//! What holds of a station of either kind, as facts that a caller can cite.

ghost use Rattle.hdlc_station_laws.specs.Asking.{AsksOnce};
ghost use Rattle.hdlc_station_laws.specs.Busy.{BusyWaits, MarksBusy};
ghost use Rattle.hdlc_station_laws.specs.Expiries.{ExpiriesCount};
ghost use Rattle.hdlc_station_laws.specs.FrameCauses.{FrameCausesRelease, FramesReleaseOnly};
ghost use Rattle.hdlc_station_laws.specs.Gaps.{GapsOfCalls};
ghost use Rattle.hdlc_station_laws.specs.GivingUp.{GivesUp};
ghost use Rattle.hdlc_station_laws.specs.LastSaid.{LastSaidOfKind};
ghost use Rattle.hdlc_station_laws.specs.Received.{FramesBringUp, FramesGiveOfKind, FramesStopTimer, FramesTellRelease, ReleasedHearNothing};
ghost use Rattle.hdlc_station_laws.specs.SentAgain.{SentAgain};
ghost use Rattle.hdlc_station_laws.specs.Settings.{SettingsStay};
ghost use Rattle.hdlc_station_laws.specs.Windows.{WindowsAreUsed};

use hdlc_frames::laws::control_is_table;
use hdlc_station_model::laws::{late_exactly, receives_give};

/// A station releases at a frame that comes exactly where a cause is met, and for that cause: 1.3 for a frame that it may not accept, which is REJ to
/// a station with selective reject and SREJ to one with go-back, 1.4 where the peer ends the link.
pub fn frames_have_causes()
    ensures each { FrameCausesRelease }
    ensures only { FramesReleaseOnly }
{
    control_is_table();
    hdlc_station_model::laws::releases_have_causes();
}

/// The last frame of a station at a frame that comes: DM at 1.3, UA to a DISC and nothing to DM and FRMR at 1.4.
pub fn last_said()
    ensures { LastSaidOfKind }
{
    control_is_table();
    hdlc_station_model::laws::last_frames();
}

/// A frame that comes leaves what was handed down alone; what is told of payloads is what is taken; a release that is told is kept.
pub fn frames_give()
    ensures payloads { FramesGiveOfKind }
    ensures releases { FramesTellRelease }
{
    receives_give();
    hdlc_station_model::laws::releases_are_told();
}

/// A frame brings a station up exactly where it is the set-up frame at a called one that is Idle, or UA at one that sent the set-up frame.
pub fn frames_bring_up()
    ensures { FramesBringUp }
{
    control_is_table();
}

/// After a release a frame that comes does nothing, and no timer runs.
pub fn released_hear_nothing()
    ensures nothing { ReleasedHearNothing }
    ensures timer { FramesStopTimer }
{}

/// The settings of a station are those that it was made with, behind each call.
pub fn settings_stay()
    ensures { SettingsStay }
{
    late_exactly();
}

/// Behind each call the count of expiries is 0 where V(A) rose or the set-up was answered, one more where a tick found T1 expired and the station
/// goes on, and else what it was.
pub fn expiries_count()
    ensures { ExpiriesCount }
{
    late_exactly();
}

/// A station gives up exactly where N2 ticks found T1 expired since V(A) last rose, or since the set-up frame was first sent, and one more does: with 1.2
/// while the link is up, with 1.1 while the set-up is unanswered.
pub fn gives_up()
    ensures { GivesUp }
{
    late_exactly();
    hdlc_station_model::laws::releases_have_causes();
}

/// RNR sets the busy mark, RR and REJ clear it, and nothing else touches it; while it is set, no call sends an I frame for the first time.
pub fn busy_waits()
    ensures marks { MarksBusy }
    ensures waits { BusyWaits }
{
    control_is_table();
    late_exactly();
}

/// Which I frames go again: all that are unacknowledged at an expiry of T1, busy or not; all from N(R) on at REJ; at SREJ the one that it asks for,
/// and nothing is acknowledged by it; none at anything else.
pub fn sent_again()
    ensures { SentAgain }
{
    control_is_table();
    late_exactly();
}

/// What a station keeps of gaps and says of them. With go-back REJ goes where an I frame isn't the next one and the gap mark isn't set, which sets it, an
/// old frame too; the next one clears it, and so does a repeated set-up. With selective reject SREJ goes once for each number that is missing before a
/// frame that is held. No other frame and no other call says REJ or SREJ, or changes what is kept.
pub fn gaps_of_calls()
    ensures { GapsOfCalls }
{
    control_is_table();
}

/// A station that may send uses its window to the full, and never passes it; a called one sends nothing before it took an I frame.
pub fn windows_are_used()
    ensures { WindowsAreUsed }
{}

/// A station with selective reject asks for a number by SREJ at most once and for none whose frame came; of those that didn't come it asked exactly once
/// for each that is missing before a held frame, and for no other. So it is over any list of events at which it isn't set up anew, by numbers that don't
/// come round. That SREJ is answered by the one I frame stands in `sent_again`, that nothing else is said to it of gaps in `gaps_of_calls`.
/// The law is shown to be false where each held frame asks for all that is missing before it, or where what was asked for is forgotten when a payload is
/// taken (both by `once`), where what is held is asked for (`came`), where the number behind the held frame is asked for too (`only`), and where no frame
/// asks while 20 are held (`each`).
pub fn asks_once()
    ensures { AsksOnce }
{
    control_is_table();
    gaps_of_calls();
    frames_have_causes();
    settings_stay();
}
