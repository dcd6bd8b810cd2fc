//! Prints a scenario as a drill file.

ghost use Rattle.std.specs.Prelude.{◌≡◌, ◌≤◌, [], ◌∷◌, ◌++◌, length, map, IfOk, OnOk, OnErr};
ghost use Rattle.std.specs.Fmt.{decimal};
ghost use Rattle.er_base.specs.Hexadecimal.{hex_of};
ghost use Rattle.er_base.specs.LineTexts.{line_text, lines_text};
ghost use Rattle.er_base.specs.Printing.{word_printed, Begins};
ghost use Rattle.er_base.specs.Sides.{side_word};
ghost use Rattle.er_scenario.specs.declared.step.Step.TheVariants as step;
ghost use Rattle.er_scenario.specs.Table.{step_word};
ghost use Rattle.er_scenario.specs.Texts.{key_word, optional_key_word, step_words, set_lines, show_lines, choice_lines, words_of_numbered_steps, text_printed, CanBeRead};
ghost use Rattle.er_scenario.specs.Laws.{IsReadAgain};

use crate::choices::default_settings;
use crate::level::Level;
use crate::numbered::Numbered;
use crate::scenario::Scenario;
use crate::step::Step;
use crate::step_name::StepName;
use des_block::TripleKey;
use er_base::PrintedWord::{Decimal, Hexadecimal, Plain};
use er_base::{EtcsNumber, NoMemory, PrintedWord, Side, eight_of, put_line};
use er_settings::{SettingName, Settings};
use std::alloc::Global;

// The octets of three keys.
#[tactic(auto, unfolding(crate::specs::Texts::key_word))]
fn key_octets(alloc: Global, key: &TripleKey) -> Result<Vec<u8>, NoMemory>
    ensures { IfOk result (λ octets. hex_of octets.items ≡ key_word key.now) }
{
    let mut octets = Vec::new(alloc);
    octets.extend_from_slice(&eight_of(key.first))?;
    octets.extend_from_slice(&eight_of(key.second))?;
    octets.extend_from_slice(&eight_of(key.third))?;
    Ok(octets)
}

// And so of three keys that are there, else none.
#[tactic(auto, unfolding(er_base::specs::Hexadecimal::hex_of))]
fn optional_key_octets(alloc: Global, key: &Option<TripleKey>) -> Result<Vec<u8>, NoMemory>
    ensures { IfOk result (λ octets. hex_of octets.items ≡ optional_key_word key.now) }
{
    match key {
        None => Ok(Vec::new(alloc)),
        Some(key) => key_octets(alloc, key),
    }
}

// Appends the line of a step, from the words behind the first one.
fn put(name: StepName, words: &[PrintedWord<'_>], out: &mut Vec<u8>) -> Result<(), NoMemory>
    ensures ok { OnOk result (out.new.items ≡ out.old.items ++ line_text (step_word name ∷ map word_printed words.now)) }
    ensures err { OnErr result (out.new.items ≡ out.old.items) }
{
    put_line(&Plain(name.word()), words, out)
}

// Appends the line of a link between two ends that are connected.
fn put_fixed(
    alloc: Global,
    link: u8,
    engine: EtcsNumber,
    rbc: EtcsNumber,
    ke: &TripleKey,
    kr: &TripleKey,
    out: &mut Vec<u8>,
) -> Result<(), NoMemory>
    ensures ok { OnOk result (out.new.items ≡ out.old.items ++ line_text (step_words (step.Fixed link engine rbc ke.now kr.now))) }
    ensures err { OnErr result (out.new.items ≡ out.old.items) }
{
    let ke = key_octets(alloc, ke)?;
    let kr = key_octets(alloc, kr)?;
    let words = [
        Decimal(link as u64),
        Decimal(engine.get() as u64),
        Decimal(rbc.get() as u64),
        Hexadecimal(ke.as_slice()),
        Hexadecimal(kr.as_slice()),
    ];
    put(StepName::Fixed, &words, out)
}

// Appends the line of a link whose engine calls.
fn put_link(
    alloc: Global,
    link: u8,
    ends: (EtcsNumber, EtcsNumber),
    ke: &TripleKey,
    kr: &Option<TripleKey>,
    randoms: (u64, u64),
    out: &mut Vec<u8>,
) -> Result<(), NoMemory>
    ensures ok { OnOk result (out.new.items
        ≡ out.old.items ++ line_text (step_words (step.Link link ends.0 ends.1 ke.now kr.now randoms.0 randoms.1))) }
    ensures err { OnErr result (out.new.items ≡ out.old.items) }
{
    let ke = key_octets(alloc, ke)?;
    let kr = optional_key_octets(alloc, kr)?;
    let words = [
        Decimal(link as u64),
        Decimal(ends.0.get() as u64),
        Decimal(ends.1.get() as u64),
        Hexadecimal(ke.as_slice()),
        Hexadecimal(kr.as_slice()),
        Hexadecimal(&eight_of(randoms.0)),
        Hexadecimal(&eight_of(randoms.1)),
    ];
    put(StepName::Link, &words, out)
}

// Appends a line of a link and a side alone.
fn put_side(name: StepName, link: u8, side: Side, out: &mut Vec<u8>) -> Result<(), NoMemory>
    ensures ok { OnOk result (out.new.items ≡ out.old.items ++ line_text (step_word name ∷ decimal link ∷ side_word side ∷ [])) }
    ensures err { OnErr result (out.new.items ≡ out.old.items) }
{
    put(name, &[Decimal(link as u64), Plain(side.word())], out)
}

// Appends a line of a link, a side and octets.
fn put_octets(
    name: StepName,
    link: u8,
    side: Side,
    octets: &[u8],
    out: &mut Vec<u8>,
) -> Result<(), NoMemory>
    ensures ok { OnOk result (out.new.items
        ≡ out.old.items ++ line_text (step_word name ∷ decimal link ∷ side_word side ∷ hex_of octets.now ∷ [])) }
    ensures err { OnErr result (out.new.items ≡ out.old.items) }
{
    let words = [
        Decimal(link as u64),
        Plain(side.word()),
        Hexadecimal(octets),
    ];
    put(name, &words, out)
}

// Appends the line of an alteration.
fn put_alter(link: u8, side: Side, place: u64, mask: u8, out: &mut Vec<u8>) -> Result<(), NoMemory>
    ensures ok { OnOk result (out.new.items ≡ out.old.items ++ line_text (step_words (step.Alter link side place mask))) }
    ensures err { OnErr result (out.new.items ≡ out.old.items) }
{
    let words = [
        Decimal(link as u64),
        Plain(side.word()),
        Decimal(place),
        Hexadecimal(&[mask]),
    ];
    put(StepName::Alter, &words, out)
}

// Appends the line of a copy.
fn put_copy(
    link: u8,
    side: Side,
    to_link: u8,
    to_side: Side,
    out: &mut Vec<u8>,
) -> Result<(), NoMemory>
    ensures ok { OnOk result (out.new.items ≡ out.old.items ++ line_text (step_words (step.Copy link side to_link to_side))) }
    ensures err { OnErr result (out.new.items ≡ out.old.items) }
{
    let words = [
        Decimal(link as u64),
        Plain(side.word()),
        Decimal(to_link as u64),
        Plain(to_side.word()),
    ];
    put(StepName::Copy, &words, out)
}

// Appends the line of a release.
fn put_release(link: u8, side: Side, sub: u8, out: &mut Vec<u8>) -> Result<(), NoMemory>
    ensures ok { OnOk result (out.new.items ≡ out.old.items ++ line_text (step_words (step.Release link side sub))) }
    ensures err { OnErr result (out.new.items ≡ out.old.items) }
{
    let words = [
        Decimal(link as u64),
        Plain(side.word()),
        Decimal(sub as u64),
    ];
    put(StepName::Release, &words, out)
}

// Appends the line of a step.
fn put_step(alloc: Global, step: &Step, out: &mut Vec<u8>) -> Result<(), NoMemory>
    ensures ok { OnOk result (out.new.items ≡ out.old.items ++ line_text (step_words step.now)) }
    ensures err { OnErr result (out.new.items ≡ out.old.items) }
{
    match step {
        Step::Fixed {
            link,
            engine,
            rbc,
            ke,
            kr,
        } => put_fixed(alloc, *link, *engine, *rbc, ke, kr, out),
        Step::Link {
            link,
            engine,
            rbc,
            ke,
            kr,
            ra,
            rb,
        } => put_link(alloc, *link, (*engine, *rbc), ke, kr, (*ra, *rb), out),
        Step::Wire { link } => put(StepName::Wire, &[Decimal(*link as u64)], out),
        Step::Send { link, side, text } => {
            put_octets(StepName::Send, *link, *side, text.as_slice(), out)
        }
        Step::Pass { link, side } => put_side(StepName::Pass, *link, *side, out),
        Step::Lose { link, side } => put_side(StepName::Lose, *link, *side, out),
        Step::Repeat { link, side } => put_side(StepName::Repeat, *link, *side, out),
        Step::Alter {
            link,
            side,
            place,
            mask,
        } => put_alter(*link, *side, *place, *mask, out),
        Step::Put { link, side, text } => {
            put_octets(StepName::Put, *link, *side, text.as_slice(), out)
        }
        Step::Copy {
            link,
            side,
            to_link,
            to_side,
        } => put_copy(*link, *side, *to_link, *to_side, out),
        Step::Take { link, side } => put_side(StepName::Take, *link, *side, out),
        Step::Release { link, side, sub } => put_release(*link, *side, *sub, out),
        Step::Tick { moment } => put(StepName::Tick, &[Decimal(moment.get())], out),
        Step::Drain { link, most } => {
            let words = [Decimal(*link as u64), Decimal(*most as u64)];
            put(StepName::Drain, &words, out)
        }
    }
}

// Appends the lines of all steps.
fn put_steps(alloc: Global, steps: &[Numbered], out: &mut Vec<u8>) -> Result<(), NoMemory>
    ensures ok { OnOk result (out.new.items ≡ out.old.items ++ lines_text (words_of_numbered_steps steps.now)) }
    ensures err { OnErr result (Begins out.old.items out.new.items) }
{
    for numbered in steps {
        put_step(alloc, &numbered.step, out)?;
    }
    Ok(())
}

// Appends the `set` line of a value that isn't the default.
fn put_set(word: &[u8], default: u64, value: u64, out: &mut Vec<u8>) -> Result<(), NoMemory>
    ensures ok { OnOk result (out.new.items ≡ out.old.items ++ lines_text (set_lines word.now default value)) }
    ensures err { OnErr result (out.new.items ≡ out.old.items) }
{
    if value == default {
        return Ok(());
    }
    put_line(&Plain(b"set"), &[Plain(word), Decimal(value)], out)
}

// Appends the line that shows frames, where they are shown.
fn put_show(show: bool, out: &mut Vec<u8>) -> Result<(), NoMemory>
    ensures ok { OnOk result (out.new.items ≡ out.old.items ++ lines_text (show_lines show)) }
    ensures err { OnErr result (out.new.items ≡ out.old.items) }
{
    if show {
        return put_line(&Plain(b"set"), &[Plain(b"show"), Plain(b"1")], out);
    }
    Ok(())
}

// Appends the `set` lines, in the order of their names.
fn put_choices(
    level: Level,
    settings: &Settings,
    show: bool,
    out: &mut Vec<u8>,
) -> Result<(), NoMemory>
    ensures ok { OnOk result (out.new.items ≡ out.old.items ++ lines_text (choice_lines level settings.now show)) }
    ensures err { OnErr result (Begins out.old.items out.new.items) }
{
    let usual = default_settings(level);
    let modulo = settings.modulo as u64;
    let window = settings.window as u64;
    let credit = settings.credit as u64;
    let size = settings.size as u64;
    let n2 = settings.n2 as u64;
    put_set(b"modulo", usual.modulo as u64, modulo, out)?;
    put_set(SettingName::Window.word(), usual.window as u64, window, out)?;
    put_set(SettingName::Credit.word(), usual.credit as u64, credit, out)?;
    put_set(SettingName::Size.word(), usual.size as u64, size, out)?;
    put_set(SettingName::T1.word(), usual.t1, settings.t1, out)?;
    put_set(SettingName::N2.word(), usual.n2 as u64, n2, out)?;
    put_set(SettingName::Setup.word(), usual.setup, settings.setup, out)?;
    put_show(show, out)?;
    Ok(())
}

/// Appends the whole text of a scenario, and leaves what was written of it where memory ended.
#[tactic(auto, unfolding(crate::specs::Texts::text_printed))]
pub fn put_text(alloc: Global, scenario: &Scenario, out: &mut Vec<u8>) -> Result<(), NoMemory>
    ensures ok { OnOk result (out.new.items ≡ out.old.items ++ text_printed scenario.now) }
    ensures err { OnErr result (Begins out.old.items out.new.items) }
{
    let header = [Plain(b"1"), Plain(scenario.level.word())];
    put_line(&Plain(b"drill"), &header, out)?;
    put_choices(scenario.level, &scenario.settings, scenario.show, out)?;
    put_steps(alloc, scenario.steps.as_slice(), out)?;
    Ok(())
}

/// Appends a scenario as a drill file: the header, a `set` line for each value that isn't the level's default, in the order
/// modulo, window, credit, size, t1, n2, setup, show, and a line a step, each ended by LF.
///
/// The scenario is one that [`read`](crate::read) can answer, line numbers aside. Where its text has at most 16,777,216
/// octets, `read` reads it as the same scenario, line numbers aside. After want of memory `out` is as it was.
pub fn print(alloc: Global, scenario: &Scenario, out: &mut Vec<u8>) -> Result<(), NoMemory>
    requires { CanBeRead scenario.now }
    ensures ok { OnOk result (out.new.items ≡ out.old.items ++ text_printed scenario.now) }
    ensures err { OnErr result (out.new.items ≡ out.old.items) }
    ensures read_back { length (text_printed scenario.now) ≤ 16777216 → IsReadAgain scenario.now }
{
    crate::laws::printed_is_read();
    let before = out.len();
    match put_text(alloc, scenario, out) {
        Ok(()) => Ok(()),
        Err(want) => {
            out.truncate(before);
            Err(want)
        }
    }
}
