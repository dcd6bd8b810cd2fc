//! `bulk SEED COUNT`: many messages over one link whose line now and then loses or repeats a frame, and how much came of them.

ghost use Rattle.std.specs.Prelude.{◌≡◌, [], ◌∷◌, ◌++◌, List, None, OnOk, IfErr, IfOk, false};
ghost use Rattle.er_scenario.specs.declared.step.Step.{Step as AnyStep};
ghost use Rattle.drill_model.specs.Faults.{fault_behind};
ghost use Rattle.drill_model.specs.StepLevels.{IsOfLevel};
ghost use Rattle.drill_model.specs.Worlds.{DrillPlan};
ghost use Rattle.er_world.specs.Standing.{Ran, IsFaultBehind};
ghost use Rattle.outside.specs.Scripts.{Does, says_last};
ghost use Rattle.er_statuses.specs.ScriptEnds.{end_of_run};
ghost use Rattle.er_program.specs.BulkTexts.{bulk_plan, steps_of_bulk, totals_line};
ghost use Rattle.er_program.specs.BulkRuns.{AreDoable, DoesAll};
ghost use Rattle.er_program.specs.StepScripts.{bulks};

use crate::endings::not_done;
use crate::message_count::MessageCount;
use drill_bulk::steps;
use er_base::PrintedWord::{Decimal, Plain};
use er_base::{NoMemory, put_line};
use er_scenario::{Level, Step};
use er_settings::Settings;
use er_statuses::acting::last;
use er_statuses::{Status, Stop};
use er_world::{Totals, World, WorldFault};
use outside::Outside;
use std::alloc::Global;

// Does a step, of which nothing is printed.
fn do_unseen(alloc: Global, step: &Step, world: &mut World) -> Result<(), WorldFault>
    requires level { IsOfLevel world.old.plan.level step.now }
    requires unspent { world.old.spent ≡ false }
    ensures ran { OnOk result ((plan : DrillPlan) (before : List AnyStep) → Ran world.old plan before
        → Ran world.new plan (before ++ step.now ∷ [])) }
    ensures none { OnOk result ((plan : DrillPlan) (before : List AnyStep) → Ran world.old plan before
        → fault_behind plan before step.now ≡ None) }
    ensures fault { IfErr result (λ fault. (plan : DrillPlan) (before : List AnyStep) → Ran world.old plan before
        → IsFaultBehind plan before step.now fault) }
    ensures unspent { OnOk result (world.new.spent ≡ false) }
    ensures plan { world.new.plan ≡ world.old.plan }
{
    let mut unseen = Vec::new(alloc);
    world.apply(alloc, step, &mut unseen)
}

// Does steps, to the end or up to the first one that isn't done.
fn do_all(alloc: Global, steps: &[Step], world: &mut World) -> Result<(), WorldFault>
    requires doable { AreDoable world.old.plan.level steps.now }
    requires ran { Ran world.old world.old.plan [] }
    requires unspent { world.old.spent ≡ false }
    ensures { DoesAll world.old.plan steps.now world.new result }
{
    for step in steps {
        match do_unseen(alloc, step, world) {
            Ok(()) => {}
            Err(fault) => return Err(fault),
        }
    }
    Ok(())
}

// The line of a bulk run.
fn put_totals(seed: u64, count: u32, totals: &Totals, out: &mut Vec<u8>) -> Result<(), NoMemory>
    ensures { OnOk result (out.new.items ≡ out.old.items ++ totals_line seed count totals.now) }
{
    put_line(
        &Plain(b"bulk"),
        &[
            Decimal(seed),
            Decimal(count as u64),
            Plain(b"sent"),
            Decimal(totals.sent),
            Plain(b"accepted"),
            Decimal(totals.accepted),
            Plain(b"passes"),
            Decimal(totals.passes),
            Plain(b"lost"),
            Decimal(totals.lost),
            Plain(b"repeated"),
            Decimal(totals.repeated),
        ],
        out,
    )
}

// All steps are done.
#[tactic(auto, using(outside::specs::ScriptSteps::does_spent))]
fn counted<O: Outside>(
    alloc: Global,
    seed: u64,
    count: u32,
    totals: &Totals,
    outside: &mut O,
) -> Result<Status, Stop>
    ensures does { Does (says_last 0 (totals_line seed count totals.now)) (O.told outside.old) (O.told outside.new) (end_of_run result) }
{
    let mut line = Vec::new(alloc);
    put_totals(seed, count, totals, &mut line)?;
    last(0, line.as_slice(), outside)
}

// The steps of a bulk run, which are opaque above.
#[tactic(auto, unfolding(crate::specs::BulkTexts::steps_of_bulk))]
fn drawn(alloc: Global, seed: u64, count: MessageCount) -> Result<Vec<Step>, NoMemory>
    ensures steps { IfOk result (λ steps. steps.items ≡ steps_of_bulk seed count) }
    ensures doable { IfOk result (λ steps. AreDoable bulk_plan.level steps.items) }
{
    steps(alloc, seed, count.get())
}

/// `bulk SEED COUNT`: does the steps of a bulk run, and prints their totals.
#[tactic(auto, using(crate::proofs::BulkActs::spent_counting))]
pub fn bulk<O: Outside>(
    alloc: Global,
    seed: u64,
    count: MessageCount,
    outside: &mut O,
) -> Result<Status, Stop>
    ensures does { Does (bulks seed count) (O.told outside.old) (O.told outside.new) (end_of_run result) }
{
    let steps = drawn(alloc, seed, count)?;
    let mut world = World::new(alloc, Level::Full, Settings::usual(), false)?;
    match do_all(alloc, steps.as_slice(), &mut world) {
        Ok(()) => counted(alloc, seed, count.get(), &world.totals(), outside),
        Err(fault) => not_done(alloc, 0, fault, outside),
    }
}
