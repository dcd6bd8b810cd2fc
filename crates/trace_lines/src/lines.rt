//! The lines of what came of an event.

ghost use Rattle.std.specs.Prelude.{◌≡◌, ◌++◌, [], ◌∷◌, option_map, OnOk};
ghost use Rattle.er_end_model.specs.Outcomes.{Taken as TakenText, NothingToTake, Refused};
ghost use Rattle.er_end_model.specs.Steps.{if_connected, if_accepted, if_released, if_octets};
ghost use Rattle.er_end.specs.Shown.{refusal_view};
ghost use Rattle.er_end.specs.Given.{if_refused, taking_told, outcomes_of_deeds, outcomes_in};
ghost use Rattle.trace_model.specs.Printed.{outcomes_text};

use er_base::{NoMemory, Release};
use er_end::{Deeds, Effects, SendRefused, Taking};
use er_trace::{Outcome, print_outcome};

#[tactic(auto, unfolding(trace_model::specs::Printed::outcomes_text))]
fn tell_connected(conn: u64, peer: Option<u32>, out: &mut Vec<u8>) -> Result<(), NoMemory>
    ensures { OnOk result (out.new.items ≡ out.old.items ++ outcomes_text conn (if_connected peer)) }
{
    match peer {
        Some(peer) => print_outcome(conn, &Outcome::Connected(peer), out),
        None => Ok(()),
    }
}

#[tactic(auto, unfolding(trace_model::specs::Printed::outcomes_text))]
fn tell_accepted(conn: u64, message: &Option<&[u8]>, out: &mut Vec<u8>) -> Result<(), NoMemory>
    ensures { OnOk result (out.new.items ≡ out.old.items ++ outcomes_text conn (if_accepted (option_map (λ m. m.now) message.now))) }
{
    match message {
        Some(message) => print_outcome(conn, &Outcome::Accepted(message), out),
        None => Ok(()),
    }
}

#[tactic(auto, unfolding(trace_model::specs::Printed::outcomes_text))]
fn tell_released(conn: u64, why: Option<Release>, out: &mut Vec<u8>) -> Result<(), NoMemory>
    ensures { OnOk result (out.new.items ≡ out.old.items ++ outcomes_text conn (if_released why)) }
{
    match why {
        Some(why) => print_outcome(conn, &Outcome::Released(why), out),
        None => Ok(()),
    }
}

// The octets that go to the line, where there are any.
#[tactic(auto, unfolding(trace_model::specs::Printed::outcomes_text))]
fn tell_octets(conn: u64, octets: &[u8], out: &mut Vec<u8>) -> Result<(), NoMemory>
    ensures { OnOk result (out.new.items ≡ out.old.items ++ outcomes_text conn (if_octets octets.now)) }
{
    if octets.is_empty() {
        return Ok(());
    }
    print_outcome(conn, &Outcome::Octets(octets), out)
}

// What is told of any event.
fn tell_deeds(conn: u64, deeds: &Deeds<'_>, out: &mut Vec<u8>) -> Result<(), NoMemory>
    ensures { OnOk result (out.new.items ≡ out.old.items ++ outcomes_text conn (outcomes_of_deeds deeds.now)) }
{
    tell_connected(conn, deeds.connected, out)?;
    tell_accepted(conn, &deeds.accepted, out)?;
    tell_released(conn, deeds.released, out)?;
    tell_octets(conn, deeds.out, out)
}

// A message that was taken.
#[tactic(auto, unfolding(trace_model::specs::Printed::outcomes_text))]
fn tell_taken(conn: u64, message: &[u8], out: &mut Vec<u8>) -> Result<(), NoMemory>
    ensures { OnOk result (out.new.items ≡ out.old.items ++ outcomes_text conn (TakenText message.now ∷ [])) }
{
    print_outcome(conn, &Outcome::Taken(message), out)
}

/// There was nothing to take.
#[tactic(auto, unfolding(trace_model::specs::Printed::outcomes_text))]
pub fn tell_empty(conn: u64, out: &mut Vec<u8>) -> Result<(), NoMemory>
    ensures { OnOk result (out.new.items ≡ out.old.items ++ outcomes_text conn (NothingToTake ∷ [])) }
{
    print_outcome(conn, &Outcome::Empty, out)
}

/// A message wasn't sent.
#[tactic(auto, unfolding(trace_model::specs::Printed::outcomes_text))]
pub fn tell_refused(conn: u64, refused: &SendRefused, out: &mut Vec<u8>) -> Result<(), NoMemory>
    ensures { OnOk result (out.new.items ≡ out.old.items ++ outcomes_text conn (Refused (refusal_view refused.now) ∷ [])) }
{
    match refused {
        SendRefused::Released(why) => print_outcome(conn, &Outcome::RefusedReleased(*why), out),
        SendRefused::NotConnected => print_outcome(conn, &Outcome::RefusedNotConnected, out),
        SendRefused::Length(found) => print_outcome(conn, &Outcome::RefusedLength(*found), out),
        SendRefused::Full(waiting) => print_outcome(conn, &Outcome::RefusedFull(*waiting), out),
    }
}

#[tactic(auto, unfolding(trace_model::specs::Printed::outcomes_text))]
fn tell_refusal(conn: u64, refused: &Option<SendRefused>, out: &mut Vec<u8>) -> Result<(), NoMemory>
    ensures { OnOk result (out.new.items ≡ out.old.items ++ outcomes_text conn (if_refused refused.now)) }
{
    match refused {
        Some(refused) => tell_refused(conn, refused, out),
        None => Ok(()),
    }
}

#[tactic(auto, unfolding(trace_model::specs::Printed::outcomes_text))]
fn tell_taking(conn: u64, taking: &Taking<'_>, out: &mut Vec<u8>) -> Result<(), NoMemory>
    ensures { OnOk result (out.new.items ≡ out.old.items ++ outcomes_text conn (taking_told taking.now)) }
{
    match taking {
        Taking::NotAsked => Ok(()),
        Taking::Nothing => tell_empty(conn, out),
        Taking::Message(message) => tell_taken(conn, message, out),
    }
}

/// All that came of an event: why a send was refused, what a take gave, and then the deeds.
pub fn tell_effects(conn: u64, effects: &Effects<'_>, out: &mut Vec<u8>) -> Result<(), NoMemory>
    ensures { OnOk result (out.new.items ≡ out.old.items ++ outcomes_text conn (outcomes_in effects.now)) }
{
    tell_refusal(conn, &effects.refused, out)?;
    tell_taking(conn, &effects.taken, out)?;
    tell_deeds(conn, &effects.deeds, out)
}
