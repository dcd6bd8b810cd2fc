//! What an end promises, as facts that a caller can cite. The functions do nothing; their contracts are the laws.

ghost use Rattle.std.specs.Prelude.{◌≤◌};
ghost use Rattle.er_end.specs.KeptLayers.{kept};
ghost use Rattle.er_end_promises.specs.AfterRelease.{EndsRestOnceReleased, ReleaseIsToldAtOnce};
ghost use Rattle.er_end_promises.specs.Calls.{CallsInTurn, CallsTellDeeds};
ghost use Rattle.er_end_promises.specs.Order.{TakenBeginsAccepted, TakenInOrder};
ghost use Rattle.er_end_promises.specs.Sending.{CallGivesAtMost, TakesWhileFewWait};
ghost use Rattle.er_end_promises.specs.Verified.{AcceptedWereBrought, AcceptsOneAtMost, AcceptsVerifiedAlone, VerifiedAreAccepted};

use er_end::End;
use er_end::laws::{keeping, standing};
use er_end_model::laws::{events_give, events_speak_once, octets_are_heard, releases};
use safety_automaton::laws::accepts_verified;

/// A released end hears nothing and says nothing: no event makes it accept a message, connect, or give octets to the line. A send is refused with its
/// release, a take still gives the messages that waited, and what its calls that read tell stays.
pub fn rests_after_release()
    ensures { EndsRestOnceReleased }
{}

/// A release is told by the call that releases, with its reason, and by no other.
pub fn release_is_told()
    ensures { ReleaseIsToldAtOnce }
{
    standing();
    releases();
}

/// A message is accepted only where its MAC verified under the session keys, at an end that is connected and not released, and one event accepts one at
/// the most. Octets that its calls were given brought it.
pub fn accepted_are_verified()
    ensures verified { AcceptsVerifiedAlone }
    ensures one { AcceptsOneAtMost }
    ensures brought { AcceptedWereBrought }
{
    keeping();
    standing();
    octets_are_heard();
    accepts_verified();
}

/// And each such message is accepted, by the call that was given its last octets.
pub fn verified_are_accepted()
    ensures { VerifiedAreAccepted }
{
    standing();
    events_give();
    events_speak_once();
    accepts_verified();
    accepted_are_verified();
}

/// What the user takes is the oldest message that was accepted and not taken: what was taken is a beginning of what was accepted, and the rest waits.
pub fn taken_in_order()
    ensures each { TakenInOrder }
    ensures opened { TakenBeginsAccepted }
{
    keeping();
}

/// What a call answers, and what the end lends behind it, is what the call tells; and what calls tell one after the other is what each tells, in turn. By
/// these a loop over calls is proved.
pub fn calls_in_turn()
    ensures deeds { CallsTellDeeds }
    ensures turn { CallsInTurn }
{}

/// What a call gives to the line is 134,160 octets at the most: the call behind which there is this end.
pub fn octets_fit(end: &End)
    ensures { CallGivesAtMost end.now }
{
    let _ = end.out();
}

/// No more than 16 messages wait to be sent.
pub fn few_wait(end: &End)
    ensures { kept.waiting end.now.core.upper ≤ 16 }
{
    let _ = end.unsent();
}

/// A message of 1 to 1,023 octets that is sent at a connected end is taken exactly while fewer than 16 wait to be sent, as `End::unsent` tells them.
pub fn takes_while_few_wait()
    ensures { TakesWhileFewWait }
{}
