//! An end with its keys, and what each event at it comes to.

ghost use Rattle.std.specs.Prelude.{◌≡◌, max, nat_lt, false, None, Some, MatchResult, option_map};
ghost use Rattle.er_end.specs.KeptEnds.{after_start, after_octets, after_send, after_take, after_release, after_tick, after_break, used_of, refusal_of_send, waiting_in};
ghost use Rattle.er_end_c.specs.Deeds.{refused_status};
ghost use Rattle.er_end.specs.Shown.{refusal_view};
ghost use Rattle.er_end_c.specs.Handles.{held_with_end};
ghost use Rattle.er_end_c.specs.Calls.{finds_in, peer_noted};
ghost use Rattle.er_end_c.specs.Shown.{deeds_of, taken_deeds, taken_shown};
ghost use Rattle.er_base.specs.declared.cause.Cause.TheVariants.{LineEnded, LineFailed, LineStalled};

use crate::face::CDeeds;
use crate::status;
use er_base::Moment;
use er_end::{End, SendRefused, Taken};
use key_store::KeyStore;

/// What a handle holds.
#[derive(Drop)]
pub struct Held {
    /// The end.
    pub end: End,
    /// The keys that it was made with, where it answers; none where it calls.
    pub keys: Option<KeyStore>,
    /// The peer with which the safe connection came to stand, below 2^24.
    pub peer: Option<u32>,
    /// The greatest moment that was passed so far.
    pub last: Moment,
    /// Whether it calls and wasn't started yet.
    pub awaits_start: bool,
}

impl Held {
    /// The end begins.
    pub fn start(&mut self, now: Moment) -> CDeeds
        ensures held { self.new ≡ record (held_with_end self.old (after_start now self.old.end)) { awaits_start = false } }
        ensures deeds { result ≡ deeds_of 0 (after_start now self.old.end) }
    {
        self.awaits_start = false;
        CDeeds::of_event(0, &self.end.start(now))
    }

    /// Octets come.
    pub fn octets(&mut self, now: Moment, piece: &[u8]) -> CDeeds
        ensures held { self.new ≡ held_with_end self.old (after_octets (finds_in self.old) now piece.now self.old.end) }
        ensures deeds { result ≡ deeds_of (used_of self.old.end piece.now) (after_octets (finds_in self.old) now piece.now self.old.end) }
    {
        let (used, deeds) = self.end.octets(&self.keys, now, piece);
        CDeeds::of_event(used, &deeds)
    }

    /// The user sends.
    pub fn send(&mut self, now: Moment, text: &[u8]) -> Result<CDeeds, SendRefused>
        ensures held { self.new ≡ held_with_end self.old (after_send now text.now self.old.end) }
        ensures answer { MatchResult result
            (λ deeds. (refusal_of_send text.now self.old.end ≡ None) × (deeds ≡ deeds_of 0 (after_send now text.now self.old.end)))
            (λ refused. refusal_of_send text.now self.old.end ≡ Some (refusal_view refused)) }
    {
        match self.end.send(now, text) {
            Ok(deeds) => Ok(CDeeds::of_event(0, &deeds)),
            Err(refused) => Err(refused),
        }
    }

    /// The user takes the oldest message. None where none waits.
    pub fn take(&mut self, now: Moment) -> Option<CDeeds>
        ensures held { self.new ≡ held_with_end self.old (after_take now self.old.end) }
        ensures answer { result ≡ taken_deeds (waiting_in self.old.end) (after_take now self.old.end) }
    {
        taken_deeds(&self.end.take(now))
    }

    /// The user releases.
    pub fn release(&mut self, now: Moment, sub: u8) -> CDeeds
        ensures held { self.new ≡ held_with_end self.old (after_release now sub self.old.end) }
        ensures deeds { result ≡ deeds_of 0 (after_release now sub self.old.end) }
    {
        CDeeds::of_event(0, &self.end.release(now, sub))
    }

    /// The moment has come.
    pub fn tick(&mut self, now: Moment) -> CDeeds
        ensures held { self.new ≡ held_with_end self.old (after_tick now self.old.end) }
        ensures deeds { result ≡ deeds_of 0 (after_tick now self.old.end) }
    {
        CDeeds::of_event(0, &self.end.tick(now))
    }

    /// The line ended.
    pub fn ended(&mut self) -> CDeeds
        ensures held { self.new ≡ held_with_end self.old (after_break LineEnded self.old.end) }
        ensures deeds { result ≡ deeds_of 0 (after_break LineEnded self.old.end) }
    {
        CDeeds::of_event(0, &self.end.ended())
    }

    /// The line failed.
    pub fn fault(&mut self) -> CDeeds
        ensures held { self.new ≡ held_with_end self.old (after_break LineFailed self.old.end) }
        ensures deeds { result ≡ deeds_of 0 (after_break LineFailed self.old.end) }
    {
        CDeeds::of_event(0, &self.end.fault())
    }

    /// The line stalled.
    pub fn stalled(&mut self) -> CDeeds
        ensures held { self.new ≡ held_with_end self.old (after_break LineStalled self.old.end) }
        ensures deeds { result ≡ deeds_of 0 (after_break LineStalled self.old.end) }
    {
        CDeeds::of_event(0, &self.end.stalled())
    }
}

/// The peer with which the safe connection came to stand last, behind an event with these deeds.
pub fn peer_noted(deeds: &CDeeds, before: Option<u32>) -> Option<u32>
    ensures { result ≡ peer_noted deeds.now before }
{
    if deeds.connected == 1 {
        Some(deeds.peer)
    } else {
        before
    }
}

/// Notes a moment that is passed: whether it is below one that was passed before.
pub fn passes(last: &mut Moment, now: Moment) -> bool
    ensures last { last.new ≡ max last.old now }
    ensures back { result ≡ nat_lt now last.old }
{
    let back = now.get() < last.get();
    *last = last.later(now);
    back
}

/// The status of a send that is refused.
pub fn refused_status(refused: SendRefused) -> i32
    ensures { result ≡ refused_status (refusal_view refused) }
{
    match refused {
        SendRefused::Released(_) => status::RELEASED,
        SendRefused::NotConnected => status::NOT_CONNECTED,
        SendRefused::Length(_) => status::LENGTH,
        SendRefused::Full(_) => status::FULL,
    }
}

fn taken_deeds(taken: &Option<Taken<'_>>) -> Option<CDeeds>
    ensures { result ≡ option_map taken_shown taken.now }
{
    match taken {
        Some(taken) => {
            let (text, out) = (taken.text, taken.out);
            Some(CDeeds {
                out: out.len(),
                message: text.len(),
                ..CDeeds::none()
            })
        }
        None => None,
    }
}
