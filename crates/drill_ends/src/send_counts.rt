//! What is counted of the sends at an end.

ghost use Rattle.std.specs.Prelude.{◌≡◌};
ghost use Rattle.drill_ends.specs.Events.{event_of};
ghost use Rattle.drill_ends.specs.SendCounts.{begins_refused, is_refusal, sent_at};

use crate::end_event::EndEvent;
use crate::told::Told;
use std::collections::VecDeque;

/// Whether what an end did is that it refused a send.
fn is_refusal(told: &Told) -> bool
    ensures { result ≡ is_refusal told.now }
{
    match told {
        Told::Sealed { .. } => false,
        Told::Verified { .. } => false,
        Told::Connected { .. } => false,
        Told::Accepted { .. } => false,
        Told::Up => false,
        Told::Arrived(_) => false,
        Told::Took(_) => false,
        Told::NothingToTake => false,
        Told::Refused(_) => true,
        Told::Released(_) => false,
        Told::Frame(_) => false,
    }
}

/// Whether what an end told begins with a refusal.
fn begins_refused(told: &VecDeque<Told>) -> bool
    ensures { result ≡ begins_refused told.now.items }
{
    match told.front() {
        Some(first) => is_refusal(first),
        None => false,
    }
}

/// How many sends that were Ok an event is: one, where the user sends and isn't refused.
pub fn sent_at(event: &EndEvent, told: &VecDeque<Told>) -> u64
    ensures { result ≡ sent_at (event_of event.now) told.now.items }
{
    match event {
        EndEvent::Start => 0,
        EndEvent::Receive(_) => 0,
        EndEvent::Send(_) => { if begins_refused(told) { 0 } else { 1 } }
        EndEvent::Take => 0,
        EndEvent::Release(_) => 0,
        EndEvent::Tick => 0,
    }
}
