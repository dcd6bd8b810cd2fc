//! The scenario of a bulk run, drawn from a seed.

ghost use Rattle.std.specs.Prelude.{◌≡◌, ◌++◌, ◌∷◌, [], IfOk, OnOk};
ghost use Rattle.er_scenario.specs.declared.step.Step.TheVariants.{Drain};
ghost use Rattle.rand_core.specs.Stream.{next_u32};
ghost use Rattle.drill_bulk.specs.Turns.{kmac, bulk_set_up_steps, sender, message, mishap, steps_of_bulk_turn, turns, bulk_steps};
ghost use Rattle.drill_bulk.specs.Draws.{words_drawn};

use des_block::TripleKey;
use er_base::{EtcsNumber, Moment, NoMemory, Octets, Side};
use er_scenario::Step;
use rand_core::{Rng, SeedableRng};
use rand_pcg::Lcg64Xsh32;
use std::alloc::Global;

/// The most messages of a bulk run.
pub const MOST_MESSAGES: u32 = 10_000;

/// The one link of a bulk run.
const LINK: u8 = 1;

/// The most passes of a drain behind a step: more than it ever needs.
const DRAIN: u32 = 1_000;

/// The KMAC of both ends.
const KMAC: TripleKey = TripleKey {
    first: 0x0123456789abcdef,
    second: 0x23456789abcdef01,
    third: 0x456789abcdef0123,
};

/// The end that sends the message of a word.
fn sender(word: u32) -> Side
    ensures { result ≡ sender word }
{
    if word % 2 == 0 { Side::E } else { Side::R }
}

/// The octets of a message, which count up from its number.
fn message(alloc: Global, index: u32, word: u32) -> Result<Octets, NoMemory>
    ensures { IfOk result (λ octets. octets ≡ message index word) }
{
    let length = 1 + word / 2 % 200;
    let mut octets = Vec::with_capacity(alloc, length as usize)?;
    for place in 0..length {
        octets.push(((index as u64 + place as u64) % 256) as u8)?;
    }
    Ok(Octets::new(octets))
}

/// What the line does to the first frame of the message of a word.
fn add_mishap(word: u32, steps: &mut Vec<Step>) -> Result<(), NoMemory>
    ensures { OnOk result (steps.new.items ≡ steps.old.items ++ mishap word) }
{
    let side = sender(word);
    match word / 512 % 8 {
        0 => steps.push(Step::Lose { link: LINK, side })?,
        1 => steps.push(Step::Repeat { link: LINK, side })?,
        _ => {}
    }
    Ok(())
}

/// The steps of the set-up.
fn add_set_up(steps: &mut Vec<Step>) -> Result<(), NoMemory>
    ensures { OnOk result (steps.new.items ≡ steps.old.items ++ bulk_set_up_steps) }
{
    steps.push(Step::Link {
        link: LINK,
        engine: EtcsNumber::new(1),
        rbc: EtcsNumber::new(2),
        ke: KMAC,
        kr: Some(KMAC),
        ra: 1,
        rb: 2,
    })?;
    steps.push(Step::Drain {
        link: LINK,
        most: 64,
    })?;
    Ok(())
}

/// What waits is passed.
fn add_drain(steps: &mut Vec<Step>) -> Result<(), NoMemory>
    ensures { OnOk result (steps.new.items ≡ steps.old.items ++ Drain 1 1000 ∷ []) }
{
    steps.push(Step::Drain {
        link: LINK,
        most: DRAIN,
    })?;
    Ok(())
}

/// The steps of a message.
fn add_turn(alloc: Global, index: u32, word: u32, steps: &mut Vec<Step>) -> Result<(), NoMemory>
    ensures { OnOk result (steps.new.items ≡ steps.old.items ++ steps_of_bulk_turn index word) }
{
    let side = sender(word);
    let text = message(alloc, index, word)?;
    steps.push(Step::Send {
        link: LINK,
        side,
        text,
    })?;
    add_mishap(word, steps)?;
    add_drain(steps)?;
    steps.push(Step::Tick {
        moment: Moment::new(1_000 * (index as u64 + 1)),
    })?;
    add_drain(steps)?;
    steps.push(Step::Take {
        link: LINK,
        side: side.other(),
    })?;
    add_drain(steps)
}

/// The steps of one message for each word that is drawn, so many.
fn add_turns<R: Rng>(
    alloc: Global,
    count: u32,
    rng: &mut R,
    steps: &mut Vec<Step>,
) -> Result<(), NoMemory>
    ensures { OnOk result (steps.new.items ≡ steps.old.items ++ turns 0 (words_drawn count (R.stream rng.old))) }
{
    for index in 0..count {
        let word = rng.next_u32();
        add_turn(alloc, index, word, steps)?;
    }
    Ok(())
}

/// The steps of a bulk run of `count` messages, drawn from the generator of this seed. They are steps of level full, for the usual
/// settings.
pub fn steps(alloc: Global, seed: u64, count: u32) -> Result<Vec<Step>, NoMemory>
    ensures { IfOk result (λ steps. steps.items ≡ bulk_steps seed count) }
{
    let mut rng = Lcg64Xsh32::seed_from_u64(seed);
    let mut steps = Vec::new(alloc);
    add_set_up(&mut steps)?;
    add_turns(alloc, count, &mut rng, &mut steps)?;
    Ok(steps)
}
