//! What a station with go-back does at a frame that comes.

ghost use Rattle.std.specs.Prelude.{◌≡◌, ◌+◌, ◌*◌, Some, true, false};
ghost use Rattle.er_base.specs.Stored.{Stored, HasRoom};
ghost use Rattle.hdlc_frames.specs.Shown.{verdict_of_octets_found};
ghost use Rattle.hdlc_station_model.specs.Stations.{no_deed};
ghost use Rattle.hdlc_station_model.specs.Calls.{receives};
ghost use Rattle.hdlc_station_model.specs.Receiving.{is_error, by_number, rejects, takes, marks_busy, repeats_rejected, sets_up_again, row_up, row_of_phase, hears_control, hears_frame, hears};
ghost use Rattle.hdlc_station.specs.Kept.{Tells, WritesFramesAtMost};
ghost use Rattle.hdlc_station.specs.Replies.{FollowsWithReply, TellsSo, FollowsWithInformation};
ghost use Rattle.hdlc_station.specs.Told.{deed_of, told_as};

use crate::deeds::LinkDeed;
use crate::heard::{Heard, Reply, Told};
use crate::hearing::{has_octets, is_addressed, is_known};
use crate::station_core::StationCore;
use er_base::{Moment, Room};
use hdlc_frames::{Control, Found};
use hdlc_station_model::Phase;

/// What a frame that came brought, and what it is answered with.
#[derive(Clone, Copy)]
struct Brought<'f> {
    /// What it brought.
    deed: LinkDeed<'f>,
    /// What it is answered with.
    reply: Reply,
}

impl<'f> Brought<'f> {
    // What a rule did with a frame of this information.
    fn of(heard: Heard, information: &'f [u8]) -> Brought<'f>
        ensures deed { deed_of result.deed ≡ told_as information.now heard.told }
        ensures reply { result.reply ≡ heard.reply }
        ensures none { result.deed.more ≡ 0 }
    {
        Brought {
            deed: LinkDeed::of(heard.told, information, 0),
            reply: heard.reply,
        }
    }
}

// Whether a frame is an error at any phase.
fn is_error(calling: bool, control: Control, information: &[u8]) -> bool
    ensures { result ≡ is_error calling control information.now }
{
    match control {
        Control::Info { .. } => false,
        Control::Rr { .. } => has_octets(information),
        Control::Rnr { .. } => has_octets(information),
        Control::Rej { .. } => has_octets(information),
        Control::Srej { .. } => true,
        Control::Sabm { .. } => calling || has_octets(information),
        Control::Sabme { .. } => calling || has_octets(information),
        Control::Disc { .. } => has_octets(information),
        Control::Ua => has_octets(information),
        Control::Dm => has_octets(information),
        Control::Frmr => false,
    }
}

// The frame isn't the next one.
fn reject(station: &mut StationCore) -> Reply
    ensures answers { FollowsWithReply station.old station.new result rejects }
    ensures window { station.new.window ≡ station.old.window }
{
    if station.has_gap() {
        return Reply::Ready;
    }
    station.mark_gap(true);
    Reply::Reject
}

fn take(station: &mut StationCore, ns: u8) -> Heard
    ensures hears { FollowsWithInformation station.old station.new result (λ payload. takes ns payload) }
    ensures window { station.new.window ≡ station.old.window }
{
    if station.vr() == ns {
        station.accept();
        return Heard {
            told: Told::Took,
            reply: Reply::Nothing,
        };
    }
    Heard {
        told: Told::Nothing,
        reply: reject(station),
    }
}

// ---- the rows of a station that is up

fn hear_info(station: &mut StationCore, ns: u8, nr: u8) -> Heard
    ensures hears { FollowsWithInformation station.old station.new result (λ payload. by_number nr (takes ns payload)) }
    ensures window { station.new.window ≡ station.old.window }
{
    let Some(up) = station.named(nr) else {
        return station.refuse();
    };
    station.acknowledge(up);
    take(station, ns)
}

// Frames are sent again at a REJ.
fn repeat_rejected(station: &mut StationCore) -> Reply
    ensures answers { FollowsWithReply station.old station.new result repeats_rejected }
    ensures window { station.new.window ≡ station.old.window }
{
    if station.ahead() == 0 {
        return Reply::Nothing;
    }
    station.repeat();
    station.start_timer();
    Reply::Again
}

fn hear_reject(station: &mut StationCore, nr: u8) -> Heard
    ensures hears { FollowsWithInformation station.old station.new result (λ information. by_number nr (λ t. repeats_rejected (marks_busy false t))) }
    ensures window { station.new.window ≡ station.old.window }
{
    let Some(up) = station.named(nr) else {
        return station.refuse();
    };
    station.acknowledge(up);
    station.mark_busy(false);
    Heard {
        told: Told::Nothing,
        reply: repeat_rejected(station),
    }
}

// The set-up frame at a station that is up.
fn set_up_again(station: &mut StationCore, poll: bool) -> Heard
    ensures hears { FollowsWithInformation station.old station.new result (λ information. sets_up_again poll) }
    ensures window { station.new.window ≡ station.old.window }
{
    if station.has_begun() {
        return station.refuse();
    }
    station.mark_gap(false);
    Heard {
        told: Told::Nothing,
        reply: Reply::Agreed { bit: poll },
    }
}

fn hear_up(station: &mut StationCore, control: Control) -> Heard
    ensures hears { FollowsWithInformation station.old station.new result (λ information s. row_up s control information) }
    ensures window { station.new.window ≡ station.old.window }
{
    match control {
        Control::Info { ns, nr } => hear_info(station, ns, nr),
        Control::Rr { nr } => station.hear_ready(nr, false),
        Control::Rnr { nr } => station.hear_ready(nr, true),
        Control::Rej { nr } => hear_reject(station, nr),
        Control::Srej { .. } => station.refuse(),
        Control::Sabm { poll } => set_up_again(station, poll),
        Control::Sabme { poll } => set_up_again(station, poll),
        Control::Disc { poll } => station.disconnect(poll),
        Control::Ua => station.stray(),
        Control::Dm => station.drop_link(),
        Control::Frmr => station.drop_link(),
    }
}

// ---- a frame that comes

// The row of a control, by the phase.
fn row(station: &mut StationCore, control: Control) -> Heard
    ensures hears { FollowsWithInformation station.old station.new result (λ information s. row_of_phase s.phase s control information) }
    ensures window { station.new.window ≡ station.old.window }
{
    match station.phase() {
        Phase::Idle => station.hear_idle(control),
        Phase::Setting => station.hear_setting(control),
        Phase::Up => hear_up(station, control),
        Phase::Down => Heard::nothing(),
    }
}

// A frame whose control was read.
fn hear_control(
    station: &mut StationCore,
    address: u8,
    control: Control,
    information: &[u8],
) -> Heard
    ensures tells { TellsSo station.old station.new result.reply (told_as information.now result.told) (hears_control address (Some (control, information.now))) }
    ensures window { station.new.window ≡ station.old.window }
{
    let calling = station.is_calling();
    if !is_addressed(calling, address, control) {
        return station.stray();
    }
    if is_error(calling, control, information) {
        return station.err();
    }
    row(station, control)
}

fn hear_frame<'f>(station: &mut StationCore, address: u8, body: &'f [u8]) -> Brought<'f>
    ensures tells { TellsSo station.old station.new result.reply (deed_of result.deed) (hears_frame address body.now) }
    ensures window { station.new.window ≡ station.old.window }
    ensures none { result.deed.more ≡ 0 }
{
    if !is_known(address) {
        return Brought::of(station.stray(), body);
    }
    let Some((control, information)) = station.read(body) else {
        return Brought::of(station.err(), body);
    };
    let heard = hear_control(station, address, control, information);
    Brought::of(heard, information)
}

// What a deframer found.
fn hear<'f>(station: &mut StationCore, found: &Found<'f>) -> Brought<'f>
    ensures tells { TellsSo station.old station.new result.reply (deed_of result.deed) (hears (verdict_of_octets_found found.now)) }
    ensures window { station.new.window ≡ station.old.window }
    ensures none { result.deed.more ≡ 0 }
{
    match found {
        Found::Frame(frame) => hear_frame(station, frame.address, frame.body),
        Found::BadFcs => {
            station.count_bad_fcs();
            Brought::of(Heard::nothing(), &[])
        }
        Found::TooShort => {
            station.count_short();
            Brought::of(Heard::nothing(), &[])
        }
        Found::TooLong => {
            station.count_long();
            Brought::of(Heard::nothing(), &[])
        }
        Found::Aborted => {
            station.count_aborted();
            Brought::of(Heard::nothing(), &[])
        }
    }
}

/// What a deframer found comes in: the station answers it, and then sends the payloads that may be sent.
pub(crate) fn receive<'f>(
    station: &mut StationCore,
    now: Moment,
    found: &Found<'f>,
    out: &mut Room,
) -> LinkDeed<'f>
    requires { HasRoom out.old ((station.old.window + 1) * 2064) }
    ensures tells { Tells station.old out.old station.new out.new (deed_of result) (receives now (verdict_of_octets_found found.now)) }
    ensures within { WritesFramesAtMost station.old out.old station.new out.new (station.old.window + 1) }
    ensures none { result.more ≡ 0 }
{
    station.bounds();
    if station.is_down() {
        return LinkDeed::nothing();
    }
    station.see(now);
    let brought = hear(station, found);
    station.bounds();
    station.write(brought.reply, out);
    station.send_waiting(out);
    brought.deed
}
