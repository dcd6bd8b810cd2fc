//! What is counted of all that comes at a link. Each count stays at its greatest value.

ghost use Rattle.std.specs.Prelude.{◌≡◌};
ghost use Rattle.std.specs.List.{count_by};
ghost use Rattle.drill_ends.specs.Events.{event_of};
ghost use Rattle.er_world.specs.Counts.{counted_change, counted_pass, counted_told, is_message_accepted, no_totals, sum};

use crate::waiting::Change;
use drill_ends::{EndEvent, Told, sent_at};
use drill_model::Totals;
use std::collections::VecDeque;

/// Nothing came.
pub fn no_totals() -> Totals
    ensures { result ≡ no_totals }
{
    Totals {
        sent: 0,
        accepted: 0,
        passes: 0,
        lost: 0,
        repeated: 0,
    }
}

/// The totals of two parts of a world.
pub fn sum(a: Totals, b: Totals) -> Totals
    ensures { result ≡ sum a b }
{
    Totals {
        sent: a.sent.saturating_add(b.sent),
        accepted: a.accepted.saturating_add(b.accepted),
        passes: a.passes.saturating_add(b.passes),
        lost: a.lost.saturating_add(b.lost),
        repeated: a.repeated.saturating_add(b.repeated),
    }
}

/// Whether what an end did is that it accepted a message.
fn is_message(told: &Told) -> bool
    ensures { result ≡ is_message_accepted told.now }
{
    match told {
        Told::Sealed { .. } => false,
        Told::Verified { .. } => false,
        Told::Connected { .. } => false,
        Told::Accepted { .. } => true,
        Told::Up => false,
        Told::Arrived(_) => true,
        Told::Took(_) => false,
        Told::NothingToTake => false,
        Told::Refused(_) => false,
        Told::Released(_) => false,
        Told::Frame(_) => false,
    }
}

/// How many messages an end accepted.
fn messages(told: &VecDeque<Told>) -> usize
    ensures { result ≡ count_by is_message_accepted told.now.items }
{
    told.iter().filter(|one| is_message(one)).count()
}

/// Counts what an end told of an event.
pub fn count_told(event: &EndEvent, told: &VecDeque<Told>, totals: &mut Totals)
    ensures { totals.new ≡ counted_told (event_of event.now) told.now.items totals.old }
{
    totals.sent = totals.sent.saturating_add(sent_at(event, told));
    totals.accepted = totals.accepted.saturating_add(messages(told) as u64);
}

/// Counts a pass.
pub fn count_pass(totals: &mut Totals)
    ensures { totals.new ≡ counted_pass totals.old }
{
    totals.passes = totals.passes.saturating_add(1);
}

/// Counts what came of a change of the frames that wait.
pub fn count_change(change: Change, totals: &mut Totals)
    ensures { totals.new ≡ counted_change change totals.old }
{
    match change {
        Change::Empty => {}
        Change::Short(_) => {}
        Change::Lost => totals.lost = totals.lost.saturating_add(1),
        Change::Repeated => totals.repeated = totals.repeated.saturating_add(1),
        Change::Altered => {}
        Change::Inserted => {}
        Change::Unchanged => {}
    }
}
