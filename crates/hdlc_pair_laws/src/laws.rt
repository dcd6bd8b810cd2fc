//! What holds of two stations over two lines, as facts that a caller can cite.

ghost use Rattle.hdlc_pair_laws.specs.Keeping.{CallsKeep, FramesGive, PhasesStay, ReceivesTell, TicksTell};
ghost use Rattle.hdlc_pair_laws.specs.EachEnd.{RecoveryInTurn, RecoveryOfEachEnd};
ghost use Rattle.hdlc_pair_laws.specs.Filling.{GapsAreFilled};
ghost use Rattle.hdlc_pair_laws.specs.FillingAgain.{GapsAreFilledAgain};
ghost use Rattle.hdlc_pair_laws.specs.LossFree.{FlowBounds, FlowKeeps};
ghost use Rattle.hdlc_pair_laws.specs.Recovery.{DrainEmptiesLive, PassesBound, PassesRelease, Recovery};
ghost use Rattle.hdlc_pair_laws.specs.Repairs.{MendEnds, MendKeeps, OneWayEnds};
ghost use Rattle.hdlc_pair_laws.specs.Timers.{Renewal, TimersRun, TimersStart};
ghost use Rattle.hdlc_pair_laws.specs.Laws.{Prefix, LosingLineReasons, Delivery, DeliveryBound, DrainEmpties, FewWait};

use hdlc_frames::laws::{control_reads_back, flag_parts, frame_alone};

/// A line that only loses and repeats: what an end took is a prefix of what was handed down at the other.
pub fn prefix()
    ensures { Prefix }
{
    control_reads_back();
    flag_parts();
    frame_alone();
}

/// A line that only loses and repeats: each release is 0.x, 1.1, 1.2 or 1.4.
pub fn losing_line_reasons()
    ensures { LosingLineReasons }
{
    control_reads_back();
    flag_parts();
    frame_alone();
}

/// A loss-free line: once it is empty, both stations are up, and the called one took all that the calling one was handed; the calling one
/// took all that the called one was handed, where it was handed a payload itself, since the called station may not send before it took one.
pub fn delivery()
    ensures { Delivery }
{
    control_reads_back();
    flag_parts();
    frame_alone();
}

/// A loss-free line: at most two deliveries and two for each payload are ever made, so a drain of as many leaves no
/// frame waiting.
pub fn delivery_bound()
    ensures bound { DeliveryBound }
    ensures drain { DrainEmpties }
{
    control_reads_back();
    flag_parts();
    frame_alone();
}

/// A loss-free line: never more than 254 frames wait in one direction.
pub fn few_wait()
    ensures { FewWait }
{
    control_reads_back();
    flag_parts();
    frame_alone();
}

/// Whatever layers stand above two stations: each call keeps what a losing line rests on, and tells the phase that it leads to.
pub fn calls_keep()
    ensures pair { CallsKeep }
    ensures receives { ReceivesTell }
    ensures ticks { TicksTell }
    ensures phases { PhasesStay }
{
    control_reads_back();
    flag_parts();
    frame_alone();
}

/// A frame that comes to a station of either kind: what was handed down stays, what is told of payloads is what is taken, a release is told,
/// and a released station does nothing.
pub fn frames_give()
    ensures { FramesGive }
{
    hdlc_station_model::laws::receives_give();
    hdlc_station_model::laws::releases_are_told();
    hdlc_station_model::laws::released_are_inert();
}

/// Whatever layers stand above two stations: while the line loses nothing, each call keeps what flows, and that bounds the deliveries and
/// the frames that wait; once none waits, all was taken: at the calling station where it was handed a payload itself.
pub fn loss_free_keeps()
    ensures calls { FlowKeeps }
    ensures bounds { FlowBounds }
{
    control_reads_back();
}

/// Whatever a line lost and repeated, while no end was released: all that waits is given; a moment finds each T1 that runs expired, and neither station
/// gives up; all that waits is given. Then each end took all that the other was handed: the calling one where it was handed a payload itself.
pub fn recovery()
    ensures recovered { Recovery }
    ensures live { PassesRelease }
{
    control_reads_back();
    flag_parts();
    frame_alone();
}

/// The same of one end at a time: a moment finds T1 of one end expired, whatever T1 of the other does, and neither gives up; all that waits is given. Then
/// T1 of that end doesn't run, no expiry is counted, and the other took all that this one was handed, whatever was lost the other way.
pub fn recovery_of_each_end()
    ensures { RecoveryOfEachEnd }
{
    control_reads_back();
    flag_parts();
    frame_alone();
    hdlc_station_model::laws::receives_give();
    hdlc_station_model::laws::releases_are_told();
    hdlc_station_model::laws::released_are_inert();
}

/// So the deadlines of both ends may come in either order: behind the second one, and all that waits then, each end took all that the other was handed.
pub fn recovery_in_turn()
    ensures { RecoveryInTurn }
{
    control_reads_back();
    flag_parts();
    frame_alone();
    hdlc_station_model::laws::receives_give();
    hdlc_station_model::laws::releases_are_told();
    hdlc_station_model::laws::released_are_inert();
}

/// A line that lost nothing so far: one frame is lost while two I frames or more wait from its end. REJ repairs that, or SREJ with selective reject:
/// once all that waits is given, each end took all that the other was handed, without an expiry of T1; the calling one where it was handed a
/// payload itself.
pub fn gaps_are_filled()
    ensures { GapsAreFilled }
{
    control_reads_back();
    flag_parts();
    frame_alone();
}

/// The same at any time in the life of a link: from a moment on at which nothing waits and nothing is unacknowledged, whatever the line lost and repeated
/// before, the next loss before others is filled without an expiry of T1. With go-back the gap mark of the station that takes must be clear there: a
/// frame that merely came twice leaves it set.
pub fn gaps_are_filled_again()
    ensures { GapsAreFilledAgain }
{
    control_reads_back();
    flag_parts();
    frame_alone();
}

/// T1 of each station runs exactly while an I frame is unacknowledged, or while the set-up is unanswered. Behind a recovery it runs at neither
/// station and no expiry is counted, so that all N2 expiries are left for the next loss.
pub fn timers_run()
    ensures exactly { TimersRun }
    ensures renewed { Renewal }
{
    control_reads_back();
    flag_parts();
    frame_alone();
}

/// When T1 of a station of either kind expires, by what each call says: it starts anew with the set-up frame, with an I frame that is sent again,
/// and at progress while one is unacknowledged; with an I frame that is sent for the first time it starts where it didn't run, and else runs on;
/// it stops where none is unacknowledged, at the answer to the set-up and at a release.
pub fn timers_start()
    ensures { TimersStart }
{}

/// How many passes that takes at most, from any moment on.
pub fn passes_are_bounded()
    ensures passes { PassesBound }
    ensures drain { DrainEmptiesLive }
{
    control_reads_back();
    flag_parts();
    frame_alone();
}

/// Whatever layers stand above two stations: each call keeps what a recovery rests on, and the two ticks lead to what repairs a loss; once no
/// frame waits behind them, all was taken: at the calling station where it was handed a payload itself. Where T1 of one alone is found expired, all that
/// it sent is acknowledged then.
pub fn mending_keeps()
    ensures calls { MendKeeps }
    ensures done { MendEnds }
    ensures one_way { OneWayEnds }
{
    control_reads_back();
    hdlc_station_model::laws::receives_give();
    hdlc_station_model::laws::releases_are_told();
    hdlc_station_model::laws::released_are_inert();
}
