//! The lines that are steps: each tests how many words stand behind its first one, and its level, and reads them.

ghost use Rattle.std.specs.Prelude.{◌≡◌, map, IfOk};
ghost use Rattle.er_base.specs.Rows.{AnswersAsWordsSay};
ghost use Rattle.er_scenario.specs.Readings.{step_of};
ghost use Rattle.er_scenario.specs.Texts.{IsReadableStep};

use crate::arguments::{
    read_etcs_number, read_key, read_link, read_mask, read_moment, read_octets, read_optional_key,
};
use crate::level::Level;
use crate::step::Step;
use crate::step_name::StepName;
use er_base::{LineFault, Why, read_number, read_number16, read_side};
use std::alloc::Global;

/// The most passes of a drain.
const MOST_PASSES: u64 = 100_000;

fn fixed(alloc: Global, level: Level, words: &[&[u8]]) -> Result<Step, LineFault>
    ensures step { AnswersAsWordsSay result (step_of level StepName.Fixed (map (λ w. w.now) words.now)) }
    ensures range { IfOk result (λ step. IsReadableStep level step) }
{
    let [link, engine, rbc, ke, kr] = words else {
        return Err(LineFault::Refused(Why::Count));
    };
    StepName::Fixed.check(level)?;
    Ok(Step::Fixed {
        link: read_link(link)?,
        engine: read_etcs_number(engine)?,
        rbc: read_etcs_number(rbc)?,
        ke: read_key(alloc, ke)?,
        kr: read_key(alloc, kr)?,
    })
}

fn link(alloc: Global, level: Level, words: &[&[u8]]) -> Result<Step, LineFault>
    ensures step { AnswersAsWordsSay result (step_of level StepName.Link (map (λ w. w.now) words.now)) }
    ensures range { IfOk result (λ step. IsReadableStep level step) }
{
    let [link, engine, rbc, ke, kr, ra, rb] = words else {
        return Err(LineFault::Refused(Why::Count));
    };
    StepName::Link.check(level)?;
    Ok(Step::Link {
        link: read_link(link)?,
        engine: read_etcs_number(engine)?,
        rbc: read_etcs_number(rbc)?,
        ke: read_key(alloc, ke)?,
        kr: read_optional_key(alloc, kr)?,
        ra: read_number16(alloc, ra)?,
        rb: read_number16(alloc, rb)?,
    })
}

fn wire(level: Level, words: &[&[u8]]) -> Result<Step, LineFault>
    ensures step { AnswersAsWordsSay result (step_of level StepName.Wire (map (λ w. w.now) words.now)) }
    ensures range { IfOk result (λ step. IsReadableStep level step) }
{
    let [link] = words else {
        return Err(LineFault::Refused(Why::Count));
    };
    StepName::Wire.check(level)?;
    Ok(Step::Wire {
        link: read_link(link)?,
    })
}

fn send(alloc: Global, level: Level, words: &[&[u8]]) -> Result<Step, LineFault>
    ensures step { AnswersAsWordsSay result (step_of level StepName.Send (map (λ w. w.now) words.now)) }
    ensures range { IfOk result (λ step. IsReadableStep level step) }
{
    let [link, side, text] = words else {
        return Err(LineFault::Refused(Why::Count));
    };
    StepName::Send.check(level)?;
    Ok(Step::Send {
        link: read_link(link)?,
        side: read_side(side)?,
        text: read_octets(alloc, text)?,
    })
}

fn pass(level: Level, words: &[&[u8]]) -> Result<Step, LineFault>
    ensures step { AnswersAsWordsSay result (step_of level StepName.Pass (map (λ w. w.now) words.now)) }
    ensures range { IfOk result (λ step. IsReadableStep level step) }
{
    let [link, side] = words else {
        return Err(LineFault::Refused(Why::Count));
    };
    StepName::Pass.check(level)?;
    Ok(Step::Pass {
        link: read_link(link)?,
        side: read_side(side)?,
    })
}

fn lose(level: Level, words: &[&[u8]]) -> Result<Step, LineFault>
    ensures step { AnswersAsWordsSay result (step_of level StepName.Lose (map (λ w. w.now) words.now)) }
    ensures range { IfOk result (λ step. IsReadableStep level step) }
{
    let [link, side] = words else {
        return Err(LineFault::Refused(Why::Count));
    };
    StepName::Lose.check(level)?;
    Ok(Step::Lose {
        link: read_link(link)?,
        side: read_side(side)?,
    })
}

fn repeat(level: Level, words: &[&[u8]]) -> Result<Step, LineFault>
    ensures step { AnswersAsWordsSay result (step_of level StepName.Repeat (map (λ w. w.now) words.now)) }
    ensures range { IfOk result (λ step. IsReadableStep level step) }
{
    let [link, side] = words else {
        return Err(LineFault::Refused(Why::Count));
    };
    StepName::Repeat.check(level)?;
    Ok(Step::Repeat {
        link: read_link(link)?,
        side: read_side(side)?,
    })
}

fn alter(alloc: Global, level: Level, words: &[&[u8]]) -> Result<Step, LineFault>
    ensures step { AnswersAsWordsSay result (step_of level StepName.Alter (map (λ w. w.now) words.now)) }
    ensures range { IfOk result (λ step. IsReadableStep level step) }
{
    let [link, side, place, mask] = words else {
        return Err(LineFault::Refused(Why::Count));
    };
    StepName::Alter.check(level)?;
    Ok(Step::Alter {
        link: read_link(link)?,
        side: read_side(side)?,
        place: read_number(place, 0, u64::MAX)?,
        mask: read_mask(alloc, mask)?,
    })
}

fn put(alloc: Global, level: Level, words: &[&[u8]]) -> Result<Step, LineFault>
    ensures step { AnswersAsWordsSay result (step_of level StepName.Put (map (λ w. w.now) words.now)) }
    ensures range { IfOk result (λ step. IsReadableStep level step) }
{
    let [link, side, text] = words else {
        return Err(LineFault::Refused(Why::Count));
    };
    StepName::Put.check(level)?;
    Ok(Step::Put {
        link: read_link(link)?,
        side: read_side(side)?,
        text: read_octets(alloc, text)?,
    })
}

fn copy(level: Level, words: &[&[u8]]) -> Result<Step, LineFault>
    ensures step { AnswersAsWordsSay result (step_of level StepName.Copy (map (λ w. w.now) words.now)) }
    ensures range { IfOk result (λ step. IsReadableStep level step) }
{
    let [link, side, to_link, to_side] = words else {
        return Err(LineFault::Refused(Why::Count));
    };
    StepName::Copy.check(level)?;
    Ok(Step::Copy {
        link: read_link(link)?,
        side: read_side(side)?,
        to_link: read_link(to_link)?,
        to_side: read_side(to_side)?,
    })
}

fn take(level: Level, words: &[&[u8]]) -> Result<Step, LineFault>
    ensures step { AnswersAsWordsSay result (step_of level StepName.Take (map (λ w. w.now) words.now)) }
    ensures range { IfOk result (λ step. IsReadableStep level step) }
{
    let [link, side] = words else {
        return Err(LineFault::Refused(Why::Count));
    };
    StepName::Take.check(level)?;
    Ok(Step::Take {
        link: read_link(link)?,
        side: read_side(side)?,
    })
}

fn release(level: Level, words: &[&[u8]]) -> Result<Step, LineFault>
    ensures step { AnswersAsWordsSay result (step_of level StepName.Release (map (λ w. w.now) words.now)) }
    ensures range { IfOk result (λ step. IsReadableStep level step) }
{
    let [link, side, sub] = words else {
        return Err(LineFault::Refused(Why::Count));
    };
    StepName::Release.check(level)?;
    Ok(Step::Release {
        link: read_link(link)?,
        side: read_side(side)?,
        sub: read_number(sub, 0, u8::MAX as u64)? as u8,
    })
}

fn tick(level: Level, words: &[&[u8]]) -> Result<Step, LineFault>
    ensures step { AnswersAsWordsSay result (step_of level StepName.Tick (map (λ w. w.now) words.now)) }
    ensures range { IfOk result (λ step. IsReadableStep level step) }
{
    let [moment] = words else {
        return Err(LineFault::Refused(Why::Count));
    };
    StepName::Tick.check(level)?;
    Ok(Step::Tick {
        moment: read_moment(moment)?,
    })
}

fn drain(level: Level, words: &[&[u8]]) -> Result<Step, LineFault>
    ensures step { AnswersAsWordsSay result (step_of level StepName.Drain (map (λ w. w.now) words.now)) }
    ensures range { IfOk result (λ step. IsReadableStep level step) }
{
    let [link, most] = words else {
        return Err(LineFault::Refused(Why::Count));
    };
    StepName::Drain.check(level)?;
    Ok(Step::Drain {
        link: read_link(link)?,
        most: read_number(most, 1, MOST_PASSES)? as u32,
    })
}

/// The step of a line of a level whose first word names it, from the words behind it.
pub fn read_step(
    alloc: Global,
    level: Level,
    name: StepName,
    words: &[&[u8]],
) -> Result<Step, LineFault>
    ensures step { AnswersAsWordsSay result (step_of level name (map (λ w. w.now) words.now)) }
    ensures range { IfOk result (λ step. IsReadableStep level step) }
{
    match name {
        StepName::Fixed => fixed(alloc, level, words),
        StepName::Link => link(alloc, level, words),
        StepName::Wire => wire(level, words),
        StepName::Send => send(alloc, level, words),
        StepName::Pass => pass(level, words),
        StepName::Lose => lose(level, words),
        StepName::Repeat => repeat(level, words),
        StepName::Alter => alter(alloc, level, words),
        StepName::Put => put(alloc, level, words),
        StepName::Copy => copy(level, words),
        StepName::Take => take(level, words),
        StepName::Release => release(level, words),
        StepName::Tick => tick(level, words),
        StepName::Drain => drain(level, words),
    }
}
