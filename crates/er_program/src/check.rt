//! `check KEYS TRACE`: a recording, held line by line against what its replay prints.

ghost use Rattle.std.specs.Prelude.{◌≡◌, IfOk};
ghost use Rattle.safety_automaton.specs.Keys.{key_at};
ghost use Rattle.er_trace.specs.Files.{trace_of};
ghost use Rattle.trace_model.specs.Recordings.{ended_part};
ghost use Rattle.outside.specs.Scripts.{Does, says_last};
ghost use Rattle.er_statuses.specs.FileScripts.{answers};
ghost use Rattle.er_statuses.specs.ScriptEnds.{end_of_run};
ghost use Rattle.er_program.specs.Answers.{checked_line, verdict_answer};
ghost use Rattle.er_program.specs.KeyedScripts.{checks_events, checks_read};

use crate::replay::not_taken;
use er_base::PrintedWord::{Decimal, Plain};
use er_base::{NoMemory, TextFault, put_line};
use er_statuses::acting::{last, out_of_form, told_line};
use er_statuses::{Status, Stop};
use er_trace::{Trace, read};
use key_store::KeyStore;
use outside::Outside;
use std::alloc::Global;
use trace_replay::{CheckVerdict, check, ended_part};

// The line of a recording that is the same: how many events and outcomes it has.
fn checked_line(alloc: Global, events: usize, outcomes: usize) -> Result<Vec<u8>, NoMemory>
    ensures { IfOk result (λ line. line.items ≡ checked_line events outcomes) }
{
    let mut line = Vec::new(alloc);
    let words = [
        Decimal(events as u64),
        Plain(b"events"),
        Decimal(outcomes as u64),
        Plain(b"outcomes"),
    ];
    put_line(&Plain(b"checked"), &words, &mut line)?;
    Ok(line)
}

// The line of a recording that is the same was said.
#[tactic(auto, using(outside::specs::ScriptSteps::does_spent))]
fn same<O: Outside>(
    alloc: Global,
    events: usize,
    outcomes: usize,
    outside: &mut O,
) -> Result<Status, Stop>
    ensures does { Does (says_last 0 (checked_line events outcomes)) (O.told outside.old) (O.told outside.new) (end_of_run result) }
{
    let line = checked_line(alloc, events, outcomes)?;
    last(0, line.as_slice(), outside)
}

// What is to be said of a recording of so many events.
fn judged<O: Outside>(
    alloc: Global,
    events: usize,
    verdict: CheckVerdict,
    outside: &mut O,
) -> Result<Status, Stop>
    ensures does { Does (answers (verdict_answer events verdict)) (O.told outside.old) (O.told outside.new) (end_of_run result) }
{
    match verdict {
        CheckVerdict::Same { outcomes } => same(alloc, events, outcomes, outside),
        CheckVerdict::Differs { line } => told_line(alloc, 9, line, b"differs", outside),
        CheckVerdict::Cut { line } => told_line(alloc, 9, line, b"cut", outside),
        CheckVerdict::Missing { line } => told_line(alloc, 9, line, b"missing", outside),
    }
}

// Checks a recording that was read.
fn check_events<O: Outside>(
    alloc: Global,
    store: &KeyStore,
    octets: &[u8],
    trace: &Trace,
    outside: &mut O,
) -> Result<Status, Stop>
    ensures does { Does (checks_events octets.now trace.now.settings (key_at store.now) trace.now.entries) (O.told outside.old) (O.told outside.new) (end_of_run result) }
{
    match check(alloc, store, octets, trace) {
        Ok(verdict) => judged(alloc, trace.entries.as_slice().len(), verdict, outside),
        Err(fault) => not_taken(alloc, fault, outside),
    }
}

/// The octets of the recording's file.
pub fn check_file<O: Outside>(
    alloc: Global,
    store: &KeyStore,
    octets: &[u8],
    outside: &mut O,
) -> Result<Status, Stop>
    ensures does { Does (checks_read store.now octets.now (trace_of (ended_part octets.now))) (O.told outside.old) (O.told outside.new) (end_of_run result) }
{
    match read(alloc, ended_part(octets)) {
        Ok(trace) => check_events(alloc, store, octets, &trace, outside),
        Err(TextFault::At { line, why }) => out_of_form(alloc, line, why, outside),
        Err(TextFault::NoMemory(want)) => Err(Stop::NoMemory(want)),
    }
}
