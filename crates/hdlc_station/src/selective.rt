//! What a station with selective reject does at a frame that comes.

ghost use Rattle.std.specs.Prelude.{◌≡◌, ◌+◌, ◌*◌, ◌<◌, ◌≤◌, ℕ, List, length, Some, true, false};
ghost use Rattle.er_base.specs.Stored.{Stored, HasRoom};
ghost use Rattle.hdlc_frames.specs.Shown.{verdict_of_octets_found};
ghost use Rattle.hdlc_station_model.specs.Receiving.{by_number};
ghost use Rattle.hdlc_station_model.specs.Selective.{is_selective_error, files, repeats_one, sets_up_selective_again, selective_row_setting, selective_row_up, selective_row, selective_hears_control, selective_hears_frame, selective_hears, selective_receives};
ghost use Rattle.hdlc_station.specs.Kept.{WritesFramesAtMost};
ghost use Rattle.hdlc_station.specs.Replies.{FollowsWithInformation};
ghost use Rattle.hdlc_station.specs.Places.{NumberPlace};
ghost use Rattle.hdlc_station.specs.Held.{Moves, TellsSelectiveDeed, FitsPlace};
ghost use Rattle.hdlc_station.specs.Told.{deed_lending};
ghost use Rattle.hdlc_station.specs.Steps.{asks_one, asks_below, takes_first};
ghost use Rattle.hdlc_station.specs.SelectiveReplies.{IsReplyWritten, IsSendable, HearsSo, BringsSo};

use crate::content::Content;
use crate::deeds::LinkDeed;
use crate::heard::{Heard, Reply, Told};
use crate::hearing::{has_octets, is_addressed, is_known};
use crate::places::Places;
use crate::selective_heard::{SelectiveBrought, SelectiveHeard, SelectiveReply};
use crate::station_core::StationCore;
use er_base::{Moment, Room};
use hdlc_frames::{Control, Found};
use hdlc_station_model::Phase;

// Whether a frame is an error at any phase.
fn is_error(calling: bool, control: Control, information: &[u8]) -> bool
    ensures { result ≡ is_selective_error calling control information.now }
{
    match control {
        Control::Info { .. } => false,
        Control::Rr { .. } => has_octets(information),
        Control::Rnr { .. } => has_octets(information),
        Control::Rej { .. } => true,
        Control::Srej { .. } => has_octets(information),
        Control::Sabm { .. } => calling || has_octets(information),
        Control::Sabme { .. } => calling || has_octets(information),
        Control::Disc { .. } => has_octets(information),
        Control::Ua => has_octets(information),
        Control::Dm => has_octets(information),
        Control::Frmr => false,
    }
}

// ---- N(S)

// A number is asked for, where it didn't come and wasn't asked for.
fn ask(station: &StationCore, places: &mut Places, up: u8, out: &mut Room)
    requires within { up < length places.old }
    requires room { HasRoom out.old 2064 }
    ensures moves { Moves station.now places.old out.old station.now places.new out.new (λ s. asks_one (length s.taken + up) s) }
    ensures within { WritesFramesAtMost station.now out.old station.now out.new 1 }
    ensures count { length places.new ≡ length places.old }
{
    station.bounds();
    if places.is_held(up as usize) {
        return;
    }
    if places.is_asked(up as usize) {
        return;
    }
    station.write(Reply::SelectiveReject { up }, out);
    places.ask(up as usize);
}

// Each number below one is asked for, where it didn't come and wasn't asked for.
fn ask_below(station: &StationCore, places: &mut Places, up: u8, out: &mut Room)
    requires within { up ≤ length places.old }
    requires room { HasRoom out.old (up * 2064) }
    ensures moves { Moves station.now places.old out.old station.now places.new out.new (λ s. asks_below up s) }
    ensures within { WritesFramesAtMost station.now out.old station.now out.new up }
    ensures count { length places.new ≡ length places.old }
{
    station.bounds();
    for i in 0..up {
        ask(station, places, i, out);
    }
}

// The next payload is taken, and those that are held behind it without a gap.
fn take(station: &mut StationCore, places: &mut Places) -> SelectiveHeard
    requires whole { length places.old ≡ station.old.window }
    ensures hears { (payload : List ℕ) → HearsSo payload station.old places.old station.new places.new result (takes_first payload) }
    ensures sendable { IsSendable station.new result.reply }
    ensures window { station.new.window ≡ station.old.window }
    ensures count { length places.new ≡ length places.old }
    ensures few { result.more ≤ length places.new }
{
    let _most = station.window();
    let run = places.run();
    station.accept_run(run as u8);
    places.drop_first(run + 1);
    SelectiveHeard {
        told: Told::Took,
        more: run,
        reply: SelectiveReply::Plain(Reply::Nothing),
    }
}

// A frame is taken, held, or known already.
fn file(
    station: &mut StationCore,
    places: &mut Places,
    ns: u8,
    payload: &Content<'_>,
) -> SelectiveHeard
    requires whole { length places.old ≡ station.old.window }
    ensures hears { HearsSo payload.now station.old places.old station.new places.new result (files ns payload.now) }
    ensures sendable { IsSendable station.new result.reply }
    ensures window { station.new.window ≡ station.old.window }
    ensures count { length places.new ≡ length places.old }
    ensures few { result.more ≤ length places.new }
{
    let Some(up) = station.named_next(ns) else {
        return SelectiveHeard::answering(SelectiveReply::Plain(Reply::Ready));
    };
    if up == 0 {
        return take(station, places);
    }
    if places.is_held(up as usize) {
        return SelectiveHeard::answering(SelectiveReply::Plain(Reply::Ready));
    }
    places.hold(up as usize, payload);
    SelectiveHeard::answering(SelectiveReply::AskBelow { up })
}

// ---- the rows of a station that is up

fn hear_info(
    station: &mut StationCore,
    places: &mut Places,
    ns: u8,
    nr: u8,
    payload: &Content<'_>,
) -> SelectiveHeard
    requires whole { length places.old ≡ station.old.window }
    ensures hears { HearsSo payload.now station.old places.old station.new places.new result (by_number nr (files ns payload.now)) }
    ensures sendable { IsSendable station.new result.reply }
    ensures window { station.new.window ≡ station.old.window }
    ensures count { length places.new ≡ length places.old }
    ensures few { result.more ≤ length places.new }
{
    let Some(up) = station.named(nr) else {
        return SelectiveHeard::of(station.refuse());
    };
    station.acknowledge(up);
    file(station, places, ns, payload)
}

// The frame that SREJ asks for is sent again.
fn repeat(station: &mut StationCore, nr: u8) -> SelectiveHeard
    ensures hears { (information : List ℕ) (ps : List NumberPlace) → HearsSo information station.old ps station.new ps result (repeats_one nr) }
    ensures sendable { IsSendable station.new result.reply }
    ensures window { station.new.window ≡ station.old.window }
    ensures none { result.more ≡ 0 }
{
    let Some(up) = station.named(nr) else {
        return SelectiveHeard::of(station.stray());
    };
    if up == station.ahead() {
        return SelectiveHeard::of(station.stray());
    }
    station.repeat_one(up);
    station.start_timer();
    SelectiveHeard::answering(SelectiveReply::Repeated { up })
}

// The set-up frame at a station that is up.
fn set_up_again(station: &mut StationCore, places: &mut Places, poll: bool) -> SelectiveHeard
    ensures hears { (information : List ℕ) → HearsSo information station.old places.old station.new places.new result (sets_up_selective_again poll) }
    ensures sendable { IsSendable station.new result.reply }
    ensures window { station.new.window ≡ station.old.window }
    ensures count { length places.new ≡ length places.old }
    ensures none { result.more ≡ 0 }
{
    if station.has_begun() {
        return SelectiveHeard::of(station.refuse());
    }
    places.drop_first(places.len());
    SelectiveHeard::answering(SelectiveReply::Plain(Reply::Agreed { bit: poll }))
}

fn hear_up(
    station: &mut StationCore,
    places: &mut Places,
    control: Control,
    information: &Content<'_>,
) -> SelectiveHeard
    requires whole { length places.old ≡ station.old.window }
    ensures hears { HearsSo information.now station.old places.old station.new places.new result (λ s. selective_row_up s control information.now) }
    ensures sendable { IsSendable station.new result.reply }
    ensures window { station.new.window ≡ station.old.window }
    ensures count { length places.new ≡ length places.old }
    ensures few { result.more ≤ length places.new }
{
    match control {
        Control::Info { ns, nr } => hear_info(station, places, ns, nr, information),
        Control::Rr { nr } => SelectiveHeard::of(station.hear_ready(nr, false)),
        Control::Rnr { nr } => SelectiveHeard::of(station.hear_ready(nr, true)),
        Control::Rej { .. } => SelectiveHeard::of(station.refuse()),
        Control::Srej { nr } => repeat(station, nr),
        Control::Sabm { poll } => set_up_again(station, places, poll),
        Control::Sabme { poll } => set_up_again(station, places, poll),
        Control::Disc { poll } => SelectiveHeard::of(station.disconnect(poll)),
        Control::Ua => SelectiveHeard::of(station.stray()),
        Control::Dm => SelectiveHeard::of(station.drop_link()),
        Control::Frmr => SelectiveHeard::of(station.drop_link()),
    }
}

// ---- a frame that comes

// The row of a control, by the phase.
fn row(
    station: &mut StationCore,
    places: &mut Places,
    control: Control,
    information: &Content<'_>,
) -> SelectiveHeard
    requires whole { length places.old ≡ station.old.window }
    ensures hears { HearsSo information.now station.old places.old station.new places.new result (λ s. selective_row s.phase s control information.now) }
    ensures sendable { IsSendable station.new result.reply }
    ensures window { station.new.window ≡ station.old.window }
    ensures count { length places.new ≡ length places.old }
    ensures few { result.more ≤ length places.new }
{
    match station.phase() {
        Phase::Idle => SelectiveHeard::of(station.hear_idle(control)),
        Phase::Setting => SelectiveHeard::of(hear_setting(station, control)),
        Phase::Up => hear_up(station, places, control, information),
        Phase::Down => SelectiveHeard::of(Heard::nothing()),
    }
}

// A frame whose control was read.
fn hear_control(
    station: &mut StationCore,
    places: &mut Places,
    address: u8,
    control: Control,
    information: &Content<'_>,
) -> SelectiveHeard
    requires whole { length places.old ≡ station.old.window }
    ensures hears { HearsSo information.now station.old places.old station.new places.new result (selective_hears_control address (Some (control, information.now))) }
    ensures sendable { IsSendable station.new result.reply }
    ensures window { station.new.window ≡ station.old.window }
    ensures count { length places.new ≡ length places.old }
    ensures few { result.more ≤ length places.new }
{
    let calling = station.is_calling();
    if !is_addressed(calling, address, control) {
        return SelectiveHeard::of(station.stray());
    }
    if is_error(calling, control, information.octets()) {
        return SelectiveHeard::of(station.err());
    }
    row(station, places, control, information)
}

fn hear_frame<'f>(
    station: &mut StationCore,
    places: &mut Places,
    address: u8,
    body: &'f [u8],
) -> SelectiveBrought<'f>
    requires fits { length body.now ≤ 1032 }
    requires whole { length places.old ≡ station.old.window }
    ensures brings { BringsSo station.old places.old station.new places.new result.reply result.deed (selective_hears_frame address body.now) }
    ensures sendable { IsSendable station.new result.reply }
    ensures window { station.new.window ≡ station.old.window }
    ensures count { length places.new ≡ length places.old }
    ensures few { result.deed.more ≤ length places.new }
{
    if !is_known(address) {
        return SelectiveBrought::of(SelectiveHeard::of(station.stray()), body);
    }
    let Some((control, information)) = station.read(body) else {
        return SelectiveBrought::of(SelectiveHeard::of(station.err()), body);
    };
    let content = Content::new(information);
    let heard = hear_control(station, places, address, control, &content);
    SelectiveBrought::of(heard, information)
}

// What a deframer found.
fn hear<'f>(
    station: &mut StationCore,
    places: &mut Places,
    found: &Found<'f>,
) -> SelectiveBrought<'f>
    requires fits { FitsPlace (verdict_of_octets_found found.now) }
    requires whole { length places.old ≡ station.old.window }
    ensures brings { BringsSo station.old places.old station.new places.new result.reply result.deed (selective_hears (verdict_of_octets_found found.now)) }
    ensures sendable { IsSendable station.new result.reply }
    ensures window { station.new.window ≡ station.old.window }
    ensures count { length places.new ≡ length places.old }
    ensures few { result.deed.more ≤ length places.new }
{
    match found {
        Found::Frame(frame) => hear_frame(station, places, frame.address, frame.body),
        Found::BadFcs => {
            station.count_bad_fcs();
            SelectiveBrought::of(SelectiveHeard::of(Heard::nothing()), &[])
        }
        Found::TooShort => {
            station.count_short();
            SelectiveBrought::of(SelectiveHeard::of(Heard::nothing()), &[])
        }
        Found::TooLong => {
            station.count_long();
            SelectiveBrought::of(SelectiveHeard::of(Heard::nothing()), &[])
        }
        Found::Aborted => {
            station.count_aborted();
            SelectiveBrought::of(SelectiveHeard::of(Heard::nothing()), &[])
        }
    }
}

// Writes a reply.
fn write(station: &StationCore, places: &mut Places, reply: SelectiveReply, out: &mut Room)
    requires whole { length places.old ≡ station.now.window }
    requires sendable { IsSendable station.now reply }
    requires room { HasRoom out.old (station.now.window * 2064) }
    ensures written { IsReplyWritten station.now places.old out.old reply places.new out.new }
    ensures within { WritesFramesAtMost station.now out.old station.now out.new station.now.window }
    ensures count { length places.new ≡ length places.old }
{
    station.bounds();
    match reply {
        SelectiveReply::Plain(reply) => station.write(reply, out),
        SelectiveReply::Repeated { up } => station.send_at(up, out),
        SelectiveReply::AskBelow { up } => ask_below(station, places, up, out),
    }
}

/// What a deframer found comes in: the station answers it, and then sends the payloads that may be sent. The places lend the payloads that were
/// held and taken.
pub(crate) fn receive<'f>(
    station: &mut StationCore,
    places: &mut Places,
    now: Moment,
    found: &Found<'f>,
    out: &mut Room,
) -> LinkDeed<'f>
    requires fits { FitsPlace (verdict_of_octets_found found.now) }
    requires whole { length places.old ≡ station.old.window }
    requires room { HasRoom out.old (2 * station.old.window * 2064) }
    ensures tells { TellsSelectiveDeed station.old places.old out.old station.new places.new out.new (deed_lending places.new result) (selective_receives now (verdict_of_octets_found found.now)) }
    ensures within { WritesFramesAtMost station.old out.old station.new out.new (2 * station.old.window) }
    ensures count { length places.new ≡ length places.old }
    ensures few { result.more ≤ length places.new }
{
    station.bounds();
    if station.is_down() {
        return LinkDeed::nothing();
    }
    station.see(now);
    let brought = hear(station, places, found);
    write(station, places, brought.reply, out);
    station.send_waiting(out);
    brought.deed
}

// A control at a station in Setting.
fn hear_setting(station: &mut StationCore, control: Control) -> Heard
    ensures hears { FollowsWithInformation station.old station.new result (λ information s. selective_row_setting s control information) }
    ensures window { station.new.window ≡ station.old.window }
{
    match control {
        Control::Info { .. } => station.stray(),
        Control::Rr { .. } => station.stray(),
        Control::Rnr { .. } => station.stray(),
        Control::Rej { .. } => station.refuse(),
        Control::Srej { .. } => station.stray(),
        Control::Sabm { .. } => station.refuse(),
        Control::Sabme { .. } => station.refuse(),
        Control::Disc { poll } => station.disconnect(poll),
        Control::Ua => station.agreed(),
        Control::Dm => station.drop_link(),
        Control::Frmr => station.drop_link(),
    }
}
