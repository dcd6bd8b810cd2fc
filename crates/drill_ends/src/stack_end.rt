//! An end of level full: a stack of a station, network blocks, a transport and a safety side, and what it tells of each event.

ghost use Rattle.std.specs.Prelude.{◌≡◌, ◌<◌, ◌≤◌, length, IfOk, OnOk};
ghost use Rattle.er_end_model.specs.Steps.{Finds};
ghost use Rattle.er_end.specs.KeptEnds.{KEnd};
ghost use Rattle.er_end.specs.Given.{model_event_of, used_by};
ghost use Rattle.drill_ends.specs.Events.{event_of};
ghost use Rattle.drill_ends.specs.StackEnds.{octets_of_event, stack_event, used_at, StackTells, StackDoes, StackAnswers, stack_moves};

use crate::end_event::EndEvent;
use crate::finder::OneKey;
use crate::refusal::Refusal;
use crate::stack_telling::{tell_call, tell_taken};
use crate::told::Told;
use er_base::{Moment, NoMemory};
use er_end::{End, Event};
use std::alloc::Global;
use std::collections::VecDeque;

/// What a stack is given at an event.
fn given_at<'a>(event: &EndEvent<'a>) -> Event<'a>
    ensures event { (finds : Finds) → model_event_of finds result ≡ stack_event finds (event_of event.now) }
    ensures used { (k : KEnd) → used_by k result ≡ used_at k (event_of event.now) }
{
    match *event {
        EndEvent::Start => Event::Start,
        EndEvent::Receive(octets) => Event::Octets(octets),
        EndEvent::Send(user) => Event::Send(user),
        EndEvent::Take => Event::Take,
        EndEvent::Release(sub) => Event::Release(sub),
        EndEvent::Tick => Event::Tick,
    }
}

/// One event at a stack, at a moment; of octets that come, those up to the first flag that closes a frame in them are the event. Answers
/// how many octets these are.
fn tell_one(
    alloc: Global,
    end: &mut End,
    keys: &OneKey,
    now: Moment,
    event: &EndEvent,
    told: &mut VecDeque<Told>,
) -> Result<usize, NoMemory>
    ensures tells { IfOk result (λ used. StackTells keys.now now end.old (event_of event.now) used end.new told.old.items told.new.items) }
    ensures within { IfOk result (λ used. used ≤ length (octets_of_event (event_of event.now))) }
    ensures moves { IfOk result (λ used. 0 < length (octets_of_event (event_of event.now)) → 0 < used) }
{
    er_end::laws::standing();
    er_end::laws::used_octets();
    drill_model::laws::stacks_report();
    hdlc_frames::laws::goes_on();
    hdlc_frames::laws::kept_stands_for_stream();
    keys.is_steady();
    let _within = now.get();
    let effects = end.apply(keys, now, &given_at(event));
    let used = effects.used;
    if let Some(refused) = effects.refused {
        told.push_back(Told::Refused(Refusal::of_stack(refused)))?;
        return Ok(used);
    }
    tell_taken(alloc, &effects.taken, told)?;
    let connected = effects.deeds.connected;
    let released = effects.deeds.released;
    tell_call(alloc, end, connected, released, told)?;
    Ok(used)
}

/// An event at a stack, at a moment. Of octets that come, each frame that closes in them is one event.
fn tell_event(
    alloc: Global,
    end: &mut End,
    keys: &OneKey,
    now: Moment,
    event: &EndEvent,
    told: &mut VecDeque<Told>,
) -> Result<(), NoMemory>
    ensures { OnOk result (StackDoes end.old end.new told.old.items told.new.items (stack_moves keys.now now (event_of event.now))) }
{
    let used = tell_one(alloc, end, keys, now, event, told)?;
    let EndEvent::Receive(octets) = event else {
        return Ok(());
    };
    let (_, mut rest) = octets.split_at(used);
    while !rest.is_empty() {
        let used = tell_one(alloc, end, keys, now, &EndEvent::Receive(rest), told)?;
        let (_, others) = rest.split_at(used);
        rest = others;
    }
    Ok(())
}

/// An event at a stack, at a moment; answers what the stack did, in its order.
pub fn stack_answer(
    alloc: Global,
    end: &mut End,
    keys: &OneKey,
    now: Moment,
    event: &EndEvent,
) -> Result<VecDeque<Told>, NoMemory>
    ensures { IfOk result (λ told. StackAnswers keys.now now end.old (event_of event.now) end.new told.items) }
{
    let mut told = VecDeque::new(alloc);
    tell_event(alloc, end, keys, now, event, &mut told)?;
    Ok(told)
}
