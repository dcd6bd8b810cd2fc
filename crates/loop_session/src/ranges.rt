//! What the types of an event and of what came of it say of them, as facts: no call but `front` does anything.

ghost use Rattle.std.specs.Prelude.{◌≡◌, ◌≤◌, ◌<◌, ◌^◌, length, take, option_map};
ghost use Rattle.er_base.specs.Octets.{AreOctets};
ghost use Rattle.er_trace.specs.Ranges.{IsEtcsNumber, IsOctet};
ghost use Rattle.er_end_model.specs.Steps.{if_accepted, if_released, if_octets};
ghost use Rattle.er_end.specs.Given.{if_refused, taking_told, outcomes_of_deeds, outcomes_in};
ghost use Rattle.loop_model.specs.Grammar.{HaveOctets};

use er_base::{EtcsNumber, Moment, Release};
use er_end::{Deeds, Effects, SendRefused, Taking};

/// A moment is at most 10^15 milliseconds.
pub fn see_moment(moment: Moment)
    ensures { moment ≤ 1000000000000000 }
{
    let _within = moment.get();
}

/// An ETCS number is below 2^24.
pub fn see_number(number: EtcsNumber)
    ensures { IsEtcsNumber number }
{
    let _within = number.get();
}

/// A word has 64 bits.
pub fn see_word(word: u64)
    ensures { word < 2 ^ 64 }
{}

/// An octet is one.
pub fn see_octet(octet: u8)
    ensures { IsOctet octet }
{}

/// A slice has octets.
pub fn see_octets(octets: &[u8])
    ensures { AreOctets octets.now }
{}

/// The first octets of a piece, so many where there are as many.
pub fn front(piece: &[u8], used: usize) -> &[u8]
    ensures front { result.now ≡ take used piece.now }
    ensures length { length result.now ≤ length piece.now }
    ensures octets { AreOctets result.now }
{
    if used < piece.len() {
        &piece[..used]
    } else {
        piece
    }
}

// A reason and a sub-reason are octets.
fn see_reasons(why: Release)
    ensures { IsOctet why.reason × IsOctet why.sub }
{}

fn see_message(message: &Option<&[u8]>)
    ensures { HaveOctets (if_accepted (option_map (λ octets. octets.now) message.now)) }
{
    match message {
        Some(octets) => see_octets(octets),
        None => {}
    }
}

fn see_release(why: Option<Release>)
    ensures { HaveOctets (if_released why) }
{
    match why {
        Some(why) => see_reasons(why),
        None => {}
    }
}

#[tactic(auto, using(crate::proofs::Grammars::octets_have))]
fn see_out(octets: &[u8])
    ensures { HaveOctets (if_octets octets.now) }
{}

#[tactic(auto, using(crate::proofs::Grammars::deeds_have))]
fn see_deeds(deeds: &Deeds<'_>)
    ensures { HaveOctets (outcomes_of_deeds deeds.now) }
{
    see_message(&deeds.accepted);
    see_release(deeds.released);
    see_out(deeds.out);
}

fn see_refused(refused: &Option<SendRefused>)
    ensures { HaveOctets (if_refused refused.now) }
{
    match refused {
        None | Some(SendRefused::NotConnected) => {}
        Some(SendRefused::Released(why)) => see_reasons(*why),
        Some(SendRefused::Length(found)) => see_word(*found as u64),
        Some(SendRefused::Full(waiting)) => see_word(*waiting as u64),
    }
}

fn see_taking(taking: &Taking<'_>)
    ensures { HaveOctets (taking_told taking.now) }
{
    match taking {
        Taking::NotAsked | Taking::Nothing => {}
        Taking::Message(text) => see_octets(text),
    }
}

/// What is told of an event is in octets.
#[tactic(auto, using(crate::proofs::Grammars::three_have))]
pub fn see_effects(effects: &Effects<'_>)
    ensures { HaveOctets (outcomes_in effects.now) }
{
    see_refused(&effects.refused);
    see_taking(&effects.taken);
    see_deeds(&effects.deeds);
}
