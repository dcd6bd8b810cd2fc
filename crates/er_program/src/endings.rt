//! How a drill or a bulk run ends: at a step that isn't done, or a drill behind the last one with the lines of its links.

ghost use Rattle.std.specs.Prelude.{◌≡◌, List, false};
ghost use Rattle.er_scenario.specs.declared.step.Step.{Step as AnyStep};
ghost use Rattle.drill_model.specs.Worlds.{DrillPlan};
ghost use Rattle.drill_model.specs.Texts.{last_lines};
ghost use Rattle.er_world.specs.Standing.{Ran};
ghost use Rattle.outside.specs.Scripts.{Does, says_last};
ghost use Rattle.er_statuses.specs.LastLines.{overfull_line};
ghost use Rattle.er_statuses.specs.ScriptEnds.{end_of_run};
ghost use Rattle.er_program.specs.StepWriting.{TellsFault};

use er_base::Side;
use er_statuses::acting::{last, told_line};
use er_statuses::{Status, Stop, overfull_line};
use er_world::{World, WorldFault};
use outside::Outside;
use std::alloc::Global;

// One frame more would wait than may.
#[tactic(auto, using(outside::specs::ScriptSteps::does_spent))]
fn overfull<O: Outside>(
    alloc: Global,
    link: u8,
    side: Side,
    most: usize,
    outside: &mut O,
) -> Result<Status, Stop>
    ensures does { Does (says_last 8 (overfull_line link side most)) (O.told outside.old) (O.told outside.new) (end_of_run result) }
{
    let line = overfull_line(alloc, link, side, most)?;
    last(8, line.as_slice(), outside)
}

/// The step of this line of the file isn't done.
pub fn not_done<O: Outside>(
    alloc: Global,
    line: usize,
    fault: WorldFault,
    outside: &mut O,
) -> Result<Status, Stop>
    ensures tells { TellsFault line fault (O.told outside.old) (O.told outside.new) (end_of_run result) }
{
    match fault {
        WorldFault::NoLink(_) => told_line(alloc, 3, line, b"nolink", outside),
        WorldFault::LinkTwice(_) => told_line(alloc, 3, line, b"twice", outside),
        WorldFault::MomentBack { .. } => told_line(alloc, 3, line, b"back", outside),
        WorldFault::Overfull { link, side, most } => overfull(alloc, link, side, most, outside),
        WorldFault::NoMemory(want) => Err(Stop::NoMemory(want)),
    }
}

/// All steps are done: the closing lines of the links.
#[tactic(auto, using(outside::specs::ScriptSteps::does_spent))]
pub fn closed<O: Outside>(alloc: Global, world: &World, outside: &mut O) -> Result<Status, Stop>
    requires { world.now.spent ≡ false }
    ensures closes { (plan : DrillPlan) (steps : List AnyStep) → Ran world.now plan steps
        → Does (says_last 0 (last_lines plan steps)) (O.told outside.old) (O.told outside.new) (end_of_run result) }
{
    let mut out = Vec::new(alloc);
    world.summary(alloc, &mut out)?;
    last(0, out.as_slice(), outside)
}
