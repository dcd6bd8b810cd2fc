//! What an engine and a radio block centre say to each other.

ghost use Rattle.std.specs.Prelude.{IfOk};
ghost use Rattle.er_end_model.specs.Ends.{Opening};
ghost use Rattle.embedded_end.specs.Sides.{IsSideOf, UserGoesOn, UserHasAccepted};

use crate::side::Side;
use er_end::{Moment, NoMemory};
use er_end_promises::laws::{accepted_are_verified, calls_in_turn, taken_in_order};
use key_store::KeyStore;

// More passes in each direction than a set-up or a message takes.
const PASSES: u64 = 8;

/// The set-up, and then a message of the engine. What the user of each has is a beginning of what its end accepted, and that verified.
pub fn talk(
    engine: &mut Side,
    centre: &mut Side,
    keys: &KeyStore,
    now: Moment,
) -> Result<(), NoMemory>
    ensures engine { (opening : Opening) → IsSideOf opening engine.old → IfOk result (λ _. UserHasAccepted opening engine.new) }
    ensures centre { (opening : Opening) → IsSideOf opening centre.old → IfOk result (λ _. UserHasAccepted opening centre.new) }
{
    calls_in_turn();
    taken_in_order();
    accepted_are_verified();
    converse(engine, centre, keys, now)?;
    Ok(())
}

fn converse(
    engine: &mut Side,
    centre: &mut Side,
    keys: &KeyStore,
    now: Moment,
) -> Result<(), NoMemory>
    ensures engine { IfOk result (λ _. UserGoesOn engine.old engine.new) }
    ensures centre { IfOk result (λ _. UserGoesOn centre.old centre.new) }
{
    calls_in_turn();
    engine.start(now)?;
    carry(engine, centre, keys, now)?;
    engine.send(now, b"a position report")?;
    carry(engine, centre, keys, now)?;
    Ok(())
}

// What each sent is given to the other.
fn carry(engine: &mut Side, centre: &mut Side, keys: &KeyStore, now: Moment) -> Result<(), NoMemory>
    ensures engine { IfOk result (λ _. UserGoesOn engine.old engine.new) }
    ensures centre { IfOk result (λ _. UserGoesOn centre.old centre.new) }
{
    calls_in_turn();
    for _pass in 0..PASSES {
        centre.receive(keys, now, &engine.to_line)?;
        engine.to_line.clear();
        engine.receive(keys, now, &centre.to_line)?;
        centre.to_line.clear();
    }
    Ok(())
}
