//! Reads a drill file, line by line.

ghost use Rattle.std.specs.Prelude.{◌≡◌, ◌≤◌, ◌+◌, false, length, map, codes, IfOk};
ghost use Rattle.std.specs.Str.{bytes_eq};
ghost use Rattle.er_base.specs.Lines.{lines_of, rows_of};
ghost use Rattle.er_base.specs.Rows.{AnswersAsWordsSay};
ghost use Rattle.er_settings.specs.Ranges.{AllAllowed};
ghost use Rattle.er_scenario.specs.Answers.{AnswersAsScenarioSays};
ghost use Rattle.er_scenario.specs.Choices.{IsNarrow, default_choices};
ghost use Rattle.er_scenario.specs.Files.{line_says, scenario_body_of, scenario_from, scenario_of};
ghost use Rattle.er_scenario.specs.Readings.{IsWellSaid, scenario_text_fault};
ghost use Rattle.er_scenario.specs.Texts.{AreReadableSteps, CanBeRead};

use crate::choices::{Choices, choose, defaults};
use crate::header::header_level;
use crate::level::Level;
use crate::numbered::Numbered;
use crate::said::Said;
use crate::scenario::Scenario;
use crate::step_list::StepList;
use crate::step_name::StepName;
use crate::steps::read_step;
use er_base::{LineFault, TextFault, Why, next_row};
use std::alloc::Global;

/// The most octets that a drill file has.
const MOST_OCTETS: usize = 16_777_216;

fn at(line: usize, fault: LineFault) -> TextFault
    ensures { result ≡ scenario_text_fault line fault }
{
    match fault {
        LineFault::Refused(why) => TextFault::At { line, why },
        LineFault::NoMemory(want) => TextFault::NoMemory(want),
    }
}

// Whether a line that this word begins chooses settings.
fn is_set(word: &[u8]) -> bool
    ensures { result ≡ bytes_eq word.now (codes "set") }
{
    word == b"set".as_slice()
}

// What a line behind the header says, from its words.
#[tactic(auto, unfolding(crate::specs::Files::line_says))]
fn read_line(
    alloc: Global,
    level: Level,
    is_late: bool,
    choices: &Choices,
    words: &[&[u8]],
) -> Result<Said, LineFault>
    ensures said { AnswersAsWordsSay result (line_says level is_late choices.now (map (λ w. w.now) words.now)) }
    ensures range { IfOk result (λ said. IsWellSaid level said) }
{
    let Some((first, arguments)) = words.split_first() else {
        return Err(LineFault::Refused(Why::Word));
    };
    if is_set(first) {
        let [name, value] = arguments else {
            return Err(LineFault::Refused(Why::Count));
        };
        if is_late {
            return Err(LineFault::Refused(Why::Late));
        }
        return Ok(Said::Chooses(choose(level, choices, name, value)?));
    }
    let Some(name) = StepName::named(first) else {
        return Err(LineFault::Refused(Why::Word));
    };
    Ok(Said::Does(read_step(alloc, level, name, arguments)?))
}

// The scenario of the lines behind the header, whose number is `header`.
fn read_body(alloc: Global, level: Level, header: usize, text: &[u8]) -> Result<Scenario, TextFault>
    requires { header + length text.now ≤ 16777216 }
    ensures exact { AnswersAsScenarioSays result
        (scenario_from level (scenario_body_of level false (default_choices level) (rows_of header (lines_of text.now)))) }
    ensures range { IfOk result (λ scenario. AllAllowed scenario.settings × IsNarrow scenario.level scenario.settings × AreReadableSteps scenario.level scenario.steps) }
{
    let mut choices = defaults(level);
    let mut steps = Vec::new(alloc);
    let mut is_late = false;
    let mut number = header;
    let mut rest = text;
    while let Some((row, behind)) = next_row(number, rest) {
        number = row.number;
        rest = behind;
        match read_line(alloc, level, is_late, &choices, row.words.as_slice()) {
            Ok(Said::Chooses(chosen)) => choices = chosen,
            Ok(Said::Does(step)) => {
                steps.push(Numbered { line: number, step })?;
                is_late = true;
            }
            Err(fault) => return Err(at(number, fault)),
        }
    }
    Ok(Scenario {
        level,
        settings: choices.settings,
        show: choices.show,
        steps: StepList::new(steps),
    })
}

/// Reads a drill file: the header `drill 1 LEVEL`, `set` lines, then steps.
///
/// Comments and blank lines are skipped, words are parted by spaces, and a last line without LF is read too. A refused
/// file is refused by the first faulty line and the first fault of that line; a file of more than 16,777,216 octets is
/// `Long` at line 0, and one without a line that isn't skipped is `Header` at line 1.
#[tactic(auto, unfolding(crate::specs::Files::scenario_of))]
pub fn read(alloc: Global, bytes: &[u8]) -> Result<Scenario, TextFault>
    ensures exact { AnswersAsScenarioSays result (scenario_of bytes.now) }
    ensures range { IfOk result (λ scenario. CanBeRead scenario) }
{
    if bytes.len() > MOST_OCTETS {
        return Err(TextFault::At {
            line: 0,
            why: Why::Long,
        });
    }
    let Some((header, rest)) = next_row(0, bytes) else {
        return Err(TextFault::At {
            line: 1,
            why: Why::Header,
        });
    };
    let Some(level) = header_level(header.words.as_slice()) else {
        return Err(TextFault::At {
            line: header.number,
            why: Why::Header,
        });
    };
    read_body(alloc, level, header.number, rest)
}
