//! `drill SCENARIO`: the steps of a scenario in a world of links, and the lines that come of them.

ghost use Rattle.std.specs.Prelude.{◌≡◌, List, [], false};
ghost use Rattle.er_scenario.specs.declared.step.Step.{Step as AnyStep};
ghost use Rattle.er_scenario.specs.Files.{scenario_of};
ghost use Rattle.er_scenario.specs.Texts.{CanBeRead};
ghost use Rattle.drill_model.specs.StepLevels.{IsOfLevel};
ghost use Rattle.drill_model.specs.Worlds.{DrillPlan, plan_of};
ghost use Rattle.er_world.specs.Standing.{Ran};
ghost use Rattle.outside.specs.Scripts.{Does};
ghost use Rattle.er_statuses.specs.ScriptEnds.{end_of_run};
ghost use Rattle.er_program.specs.StepScripts.{drills_steps, drills_read, drills};
ghost use Rattle.er_program.specs.StepWriting.{StepsOne};

use crate::endings::{closed, not_done};
use crate::halt::Halt;
use er_base::TextFault;
use er_scenario::{Scenario, Step, read};
use er_statuses::acting::{out_of_form, say, unfetched};
use er_statuses::{Status, Stop};
use er_world::World;
use link_trait::FetchFault;
use outside::Outside;
use std::alloc::Global;

// Does a step and writes its lines as soon as it is done.
fn step_once<O: Outside>(
    alloc: Global,
    world: &mut World,
    step: &Step,
    outside: &mut O,
) -> Result<(), Halt>
    requires level { IsOfLevel world.old.plan.level step.now }
    requires unspent { world.old.spent ≡ false }
    ensures steps { (plan : DrillPlan) (done : List AnyStep) → Ran world.old plan done
        → StepsOne plan done world.old step.now world.new (O.told outside.old) (O.told outside.new) result }
{
    let mut out = Vec::new(alloc);
    match world.apply(alloc, step, &mut out) {
        Ok(()) => match say(out.as_slice(), outside) {
            Ok(()) => Ok(()),
            Err(_) => Err(Halt::Sink),
        },
        Err(fault) => Err(Halt::Fault(fault)),
    }
}

// Does the steps of a scenario and writes what comes of them, to the end or up to the first step that isn't done.
#[tactic(auto, using(crate::proofs::Drilling::spent_steps))]
fn drill_steps<O: Outside>(
    alloc: Global,
    scenario: &Scenario,
    outside: &mut O,
) -> Result<Status, Stop>
    requires { CanBeRead scenario.now }
    ensures does { Does (drills_steps (plan_of scenario.now) [] scenario.now.steps) (O.told outside.old) (O.told outside.new) (end_of_run result) }
{
    let mut world = World::new(alloc, scenario.level, scenario.settings, scenario.show)?;
    for numbered in scenario.steps.as_slice() {
        match step_once(alloc, &mut world, &numbered.step, outside) {
            Ok(()) => {}
            Err(Halt::Sink) => return Err(Stop::Sink),
            Err(Halt::Fault(fault)) => return not_done(alloc, numbered.line, fault, outside),
        }
    }
    closed(alloc, &world, outside)
}

// The octets of the file.
fn drill_file<O: Outside>(alloc: Global, octets: &[u8], outside: &mut O) -> Result<Status, Stop>
    ensures does { Does (drills_read (scenario_of octets.now)) (O.told outside.old) (O.told outside.new) (end_of_run result) }
{
    match read(alloc, octets) {
        Ok(scenario) => drill_steps(alloc, &scenario, outside),
        Err(TextFault::At { line, why }) => out_of_form(alloc, line, why, outside),
        Err(TextFault::NoMemory(want)) => Err(Stop::NoMemory(want)),
    }
}

/// `drill NAME`: fetches the file, does its steps and prints what comes of them.
pub fn drill<O: Outside>(alloc: Global, name: &str, outside: &mut O) -> Result<Status, Stop>
    ensures does { Does (drills name.now) (O.told outside.old) (O.told outside.new) (end_of_run result) }
{
    match outside.fetch(alloc, name) {
        Ok(octets) => drill_file(alloc, octets.as_slice(), outside),
        Err(FetchFault::Failed) => unfetched(alloc, name, outside),
        Err(FetchFault::NoMemory(want)) => Err(Stop::NoMemory(want)),
    }
}
