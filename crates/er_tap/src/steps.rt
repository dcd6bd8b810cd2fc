//! The lines behind the header: each tests how many words stand behind its first one, and reads them.

ghost use Rattle.std.specs.Prelude.{◌≡◌, map, IfOk};
ghost use Rattle.er_base.specs.Rows.{AnswersAsWordsSay};
ghost use Rattle.er_tap.specs.Ranges.{IsInRange};
ghost use Rattle.er_tap.specs.Readings.{step_of};

use crate::arguments::{read_etcs_number, read_link, read_moment, read_octets};
use crate::line_name::LineName;
use crate::tap_step::TapStep;
use er_base::{LineFault, Why, read_side};
use std::alloc::Global;

fn link(words: &[&[u8]]) -> Result<TapStep, LineFault>
    ensures step { AnswersAsWordsSay result (step_of LineName.Link (map (λ w. w.now) words.now)) }
    ensures range { IfOk result (λ step. IsInRange step) }
{
    let [link, engine, rbc, moment] = words else {
        return Err(LineFault::Refused(Why::Count));
    };
    Ok(TapStep::Link {
        link: read_link(link)?,
        engine: read_etcs_number(engine)?,
        rbc: read_etcs_number(rbc)?,
        moment: read_moment(moment)?,
    })
}

fn octets(alloc: Global, words: &[&[u8]]) -> Result<TapStep, LineFault>
    ensures step { AnswersAsWordsSay result (step_of LineName.Octets (map (λ w. w.now) words.now)) }
    ensures range { IfOk result (λ step. IsInRange step) }
{
    let [link, side, text] = words else {
        return Err(LineFault::Refused(Why::Count));
    };
    Ok(TapStep::Octets {
        link: read_link(link)?,
        side: read_side(side)?,
        text: read_octets(alloc, text)?,
    })
}

/// What a line says whose first word names it, from the words behind it.
pub fn read_step(alloc: Global, name: LineName, words: &[&[u8]]) -> Result<TapStep, LineFault>
    ensures step { AnswersAsWordsSay result (step_of name (map (λ w. w.now) words.now)) }
    ensures range { IfOk result (λ step. IsInRange step) }
{
    match name {
        LineName::Link => link(words),
        LineName::Octets => octets(alloc, words),
    }
}
