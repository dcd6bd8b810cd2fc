//! What a stack tells of its newest event.

ghost use Rattle.std.specs.Prelude.{◌≡◌, ◌++◌, OnOk};
ghost use Rattle.safety_automaton.specs.Safety.{session_in};
ghost use Rattle.er_end.specs.Inboxes.{newest_of};
ghost use Rattle.drill_ends.specs.SafeEnds.{checked_text, told_sealed};
ghost use Rattle.drill_ends.specs.StackEnds.{told_taken, told_checked, TellsCall};

use crate::telling::{copied, tell_frames, tell_released};
use crate::told::Told;
use er_base::{NoMemory, Release};
use er_end::{End, Taking};
use std::alloc::Global;
use std::collections::VecDeque;

/// Tells what a user that asked for a message got.
pub fn tell_taken(alloc: Global, taking: &Taking, told: &mut VecDeque<Told>) -> Result<(), NoMemory>
    ensures { OnOk result (told.new.items ≡ told.old.items ++ told_taken taking.now) }
{
    match taking {
        Taking::NotAsked => Ok(()),
        Taking::Nothing => {
            told.push_back(Told::NothingToTake)?;
            Ok(())
        }
        Taking::Message(message) => {
            let message = copied(alloc, message)?;
            told.push_back(Told::Took(message))?;
            Ok(())
        }
    }
}

/// Tells what else came of the newest event of a stack, which connected it to this peer and released it so, where it did.
pub fn tell_call(
    alloc: Global,
    end: &End,
    connected: Option<u32>,
    released: Option<Release>,
    told: &mut VecDeque<Told>,
) -> Result<(), NoMemory>
    ensures { OnOk result (TellsCall end.now connected released told.old.items told.new.items) }
{
    tell_checked(alloc, end, connected, told)?;
    tell_sealed(alloc, end, told)?;
    tell_released(released, told)?;
    tell_frames(alloc, end.out(), told)
}

/// Tells what a text that verified brought: a connection, a message, or a step of the set-up.
fn tell_checked(
    alloc: Global,
    end: &End,
    connected: Option<u32>,
    told: &mut VecDeque<Told>,
) -> Result<(), NoMemory>
    ensures { OnOk result (told.new.items ≡ told.old.items
        ++ told_checked connected (newest_of end.now.core.upper.inbox) (checked_text end.now.core.safe.verified (session_in end.now.core.safe.safety.phase))) }
{
    let Some(text) = end.verified() else {
        return Ok(());
    };
    let Some(keys) = end.session() else {
        return Ok(());
    };
    let key = keys.key();
    let text = copied(alloc, text)?;
    match (connected, end.accepted()) {
        (Some(peer), _) => told.push_back(Told::Connected { peer, key, text })?,
        (None, Some(user)) => {
            let user = copied(alloc, user)?;
            told.push_back(Told::Accepted { user, key, text })?
        }
        (None, None) => told.push_back(Told::Verified { key, text })?,
    }
    Ok(())
}

/// Tells the text that was sealed, if one was.
fn tell_sealed(alloc: Global, end: &End, told: &mut VecDeque<Told>) -> Result<(), NoMemory>
    ensures { OnOk result (told.new.items ≡ told.old.items ++ told_sealed end.now.core.safe.sealed (session_in end.now.core.safe.safety.phase)) }
{
    let Some(text) = end.sealed() else {
        return Ok(());
    };
    let Some(keys) = end.session() else {
        return Ok(());
    };
    let text = copied(alloc, text)?;
    let key = keys.key();
    told.push_back(Told::Sealed { key, text })?;
    Ok(())
}
