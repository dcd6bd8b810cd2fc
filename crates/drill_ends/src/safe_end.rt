//! An end of level safe: a side of a safe connection, and what it tells of each event.

ghost use Rattle.std.specs.Prelude.{◌≡◌, ◌++◌, [], Some, None, IfOk, OnOk};
ghost use Rattle.safety_automaton.specs.Keys.{key_at};
ghost use Rattle.safety_automaton.specs.Safety.{no_keys, ConnectRequest, Received, DataRequest, DisconnectRequest, session_in};
ghost use Rattle.safety_automaton.specs.Views.{report_view};
ghost use Rattle.drill_model.specs.Ends.{safe_end_step, safety_event};
ghost use Rattle.drill_model.specs.Ends as model;
ghost use Rattle.drill_ends.specs.Events.{event_of};
ghost use Rattle.drill_ends.specs.SafeEnds.{SafeWent, checked_text, told_report, told_sealed, told_written};

use crate::end_event::EndEvent;
use crate::finder::OneKey;
use crate::refusal::Refusal;
use crate::telling::copied;
use crate::told::Told;
use des_block::TripleKey;
use er_base::{Cause, Moment, NoMemory, Octets, Room};
use safety_automaton::{Safe, SafeDeed, SafeState};
use std::alloc::Global;
use std::collections::VecDeque;

/// The most octets of an SaPDU.
const SAPDU_OCTETS: usize = 1032;

/// A text that verified, and its session keys.
#[derive(Drop)]
struct Checked {
    key: TripleKey,
    text: Octets,
}

/// The text that verified in the last call of a side, if one did.
fn checked_in(alloc: Global, safe: &Safe) -> Result<Option<Checked>, NoMemory>
    ensures { IfOk result (λ found. found ≡ checked_text safe.now.verified (session_in safe.now.safety.phase)) }
{
    let Some(text) = safe.verified() else {
        return Ok(None);
    };
    let Some(keys) = safe.session() else {
        return Ok(None);
    };
    let text = Octets::new(Vec::from_slice(alloc, text)?);
    let key = keys.key();
    Ok(Some(Checked { key, text }))
}

/// Tells the text that the last call of a side sealed, if it sealed one.
fn tell_sealed(alloc: Global, safe: &Safe, told: &mut VecDeque<Told>) -> Result<(), NoMemory>
    ensures { OnOk result (told.new.items ≡ told.old.items ++ told_sealed safe.now.sealed (session_in safe.now.safety.phase)) }
{
    let Some(text) = safe.sealed() else {
        return Ok(());
    };
    let Some(keys) = safe.session() else {
        return Ok(());
    };
    let text = Octets::new(Vec::from_slice(alloc, text)?);
    let key = keys.key();
    told.push_back(Told::Sealed { key, text })?;
    Ok(())
}

/// Tells the octets that a side wrote, if any.
fn tell_written(alloc: Global, written: &[u8], told: &mut VecDeque<Told>) -> Result<(), NoMemory>
    ensures { OnOk result (told.new.items ≡ told.old.items ++ told_written written.now) }
{
    if written.is_empty() {
        return Ok(());
    }
    let frame = Octets::new(Vec::from_slice(alloc, written)?);
    told.push_back(Told::Frame(frame))?;
    Ok(())
}

/// Tells what a side did with octets from its peer, by which no text verified.
fn tell_unchecked(deed: &SafeDeed, told: &mut VecDeque<Told>) -> Result<(), NoMemory>
    ensures { OnOk result (told.new.items ≡ told.old.items ++ told_report (report_view deed.now) None) }
{
    match deed {
        SafeDeed::Answered => Ok(()),
        SafeDeed::Connected { .. } => Ok(()),
        SafeDeed::Accepted(_) => Ok(()),
        SafeDeed::Released(release) => {
            told.push_back(Told::Released(*release))?;
            Ok(())
        }
        SafeDeed::Ignored => Ok(()),
    }
}

/// Tells what a side did with octets from its peer, by which this text verified.
fn tell_checked(
    alloc: Global,
    deed: &SafeDeed,
    checked: Checked,
    told: &mut VecDeque<Told>,
) -> Result<(), NoMemory>
    ensures { OnOk result (told.new.items ≡ told.old.items ++ told_report (report_view deed.now) (Some checked)) }
{
    let Checked { key, text } = checked;
    match deed {
        SafeDeed::Answered => {
            told.push_back(Told::Verified { key, text })?;
            Ok(())
        }
        SafeDeed::Connected { peer } => {
            told.push_back(Told::Connected {
                peer: *peer,
                key,
                text,
            })?;
            Ok(())
        }
        SafeDeed::Accepted(user) => {
            let user = copied(alloc, user)?;
            told.push_back(Told::Accepted { user, key, text })?;
            Ok(())
        }
        SafeDeed::Released(release) => {
            told.push_back(Told::Released(*release))?;
            Ok(())
        }
        SafeDeed::Ignored => Ok(()),
    }
}

/// Tells what a side did with octets from its peer.
fn tell_report(
    alloc: Global,
    deed: &SafeDeed,
    checked: Option<Checked>,
    told: &mut VecDeque<Told>,
) -> Result<(), NoMemory>
    ensures { OnOk result (told.new.items ≡ told.old.items ++ told_report (report_view deed.now) checked) }
{
    match checked {
        Some(checked) => tell_checked(alloc, deed, checked, told),
        None => tell_unchecked(deed, told),
    }
}

/// A side that is to call begins.
fn started(alloc: Global, safe: &mut Safe) -> Result<VecDeque<Told>, NoMemory>
    ensures { IfOk result (λ told. SafeWent safe.new told.items (safe_end_step no_keys safe.old.safety (safety_event model.Start))) }
{
    let mut told = VecDeque::new(alloc);
    match safe.state() {
        SafeState::Ready => {
            let mut room = Room::with_capacity(alloc, SAPDU_OCTETS)?;
            safe.start(&mut room);
            tell_written(alloc, room.held(), &mut told)?;
            Ok(told)
        }
        _ => Ok(told),
    }
}

/// Octets from the peer come to a side, at a moment.
fn received(
    alloc: Global,
    safe: &mut Safe,
    keys: &OneKey,
    now: Moment,
    octets: &[u8],
) -> Result<VecDeque<Told>, NoMemory>
    ensures { IfOk result (λ told. SafeWent safe.new told.items (safe_end_step (key_at keys.now now) safe.old.safety (safety_event (model.Receive octets.now)))) }
{
    let mut room = Room::with_capacity(alloc, SAPDU_OCTETS)?;
    let deed = safe.receive(keys, now, octets, &mut room);
    let checked = checked_in(alloc, safe)?;
    let mut told = VecDeque::new(alloc);
    tell_report(alloc, &deed, checked, &mut told)?;
    tell_sealed(alloc, safe, &mut told)?;
    tell_written(alloc, room.held(), &mut told)?;
    Ok(told)
}

/// The user of a side sends.
fn sent(alloc: Global, safe: &mut Safe, user: &[u8]) -> Result<VecDeque<Told>, NoMemory>
    ensures { IfOk result (λ told. SafeWent safe.new told.items (safe_end_step no_keys safe.old.safety (safety_event (model.Send user.now)))) }
{
    let mut room = Room::with_capacity(alloc, SAPDU_OCTETS)?;
    let mut told = VecDeque::new(alloc);
    match safe.send(user, &mut room) {
        Ok(()) => {
            tell_sealed(alloc, safe, &mut told)?;
            tell_written(alloc, room.held(), &mut told)?;
            Ok(told)
        }
        Err(refused) => {
            told.push_back(Told::Refused(Refusal::of_side(refused)))?;
            Ok(told)
        }
    }
}

/// The user of a side releases.
fn released(alloc: Global, safe: &mut Safe, sub: u8) -> Result<VecDeque<Told>, NoMemory>
    ensures { IfOk result (λ told. SafeWent safe.new told.items (safe_end_step no_keys safe.old.safety (safety_event (model.Release sub)))) }
{
    let mut room = Room::with_capacity(alloc, SAPDU_OCTETS)?;
    safe.release(sub, &mut room);
    let mut told = VecDeque::new(alloc);
    if room.held().is_empty() {
        return Ok(told);
    }
    told.push_back(Told::Released(Cause::User { sub }.release()))?;
    tell_written(alloc, room.held(), &mut told)?;
    Ok(told)
}

/// An event at a side, at a moment; answers what the side did. The side takes no messages and has no timers: it tells nothing of either.
pub fn safe_answer(
    alloc: Global,
    safe: &mut Safe,
    keys: &OneKey,
    now: Moment,
    event: &EndEvent,
) -> Result<VecDeque<Told>, NoMemory>
    ensures { IfOk result (λ told. SafeWent safe.new told.items (safe_end_step (key_at keys.now now) safe.old.safety (safety_event (event_of event.now)))) }
{
    match event {
        EndEvent::Start => started(alloc, safe),
        EndEvent::Receive(octets) => received(alloc, safe, keys, now, octets),
        EndEvent::Send(user) => sent(alloc, safe, user),
        EndEvent::Take => Ok(VecDeque::new(alloc)),
        EndEvent::Release(sub) => released(alloc, safe, *sub),
        EndEvent::Tick => Ok(VecDeque::new(alloc)),
    }
}
