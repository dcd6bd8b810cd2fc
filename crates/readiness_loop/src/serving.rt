//! A loop that listens.

ghost use Rattle.std.specs.Prelude.{◌<◌, ◌^◌, length, map};
ghost use Rattle.outside.specs.Scripts.{printing};
ghost use Rattle.loop_session.specs.Parts.{OnlyPrints, Puts};
ghost use Rattle.loop_model.specs.Journals.{trace_header};
ghost use Rattle.readiness_loop.specs.Claims.{serving, ServesOn};
ghost use Rattle.readiness_loop.specs.Courses.{around, plan_of_loop, Serves};
ghost use Rattle.readiness_loop.specs.Recorded.{IsRecordedFirst};

use crate::line_plan::{LinePlan, Served};
use crate::live_loop::LiveLoop;
use crate::loop_plan::{LoopPlan, see_settings};
use er_base::EtcsNumber;
use er_settings::Settings;
use er_trace::print_header;
use er_users::SafeUser;
use journal::Journal;
use key_store::KeyStore;
use loop_model::laws;
use loop_session::{LoopFault, write_lines};
use outside::Outside;
use safety_automaton::KeyFinder;
use std::alloc::Global;

// Writes the header of the journal.
pub(crate) fn write_header<O: Outside>(
    alloc: Global,
    settings: &Settings,
    outside: &mut O,
) -> Result<(), LoopFault>
    ensures puts { Puts (O.told outside.old) (O.told outside.new) (printing (trace_header settings.now)) result }
    ensures only { OnlyPrints (O.told outside.old) (O.told outside.new) }
{
    let mut line = Vec::new(alloc);
    print_header(settings, &mut line)?;
    write_lines(line.as_slice(), outside)
}

// A loop that serves, over users of any one type.
fn serve_users<U: SafeUser, K: KeyFinder, O: Journal>(
    alloc: Global,
    keys: &K,
    plan: &LoopPlan,
    address: &str,
    users: Vec<U>,
    outside: &mut O,
) -> Result<Served, LoopFault>
    ensures does { Serves (plan_of_loop (K.entries keys.now) plan.now) (around (O.told outside.old)) (around (O.told outside.new))
        (map U.mind users.items) (O.told outside.old).words (O.told outside.new).words address.now result }
    ensures recorded { IsRecordedFirst (trace_header plan.now.settings) (O.told outside.old) (O.told outside.new) }
{
    laws::journal();
    laws::octets();
    laws::open_connections();
    laws::octets_taken();
    laws::recordings();
    laws::order();
    laws::replies();
    laws::hearing();
    laws::faults();
    laws::turns();
    loop_session::laws::standing();
    see_settings(&plan.settings);
    let mut live = LiveLoop::new(alloc, users)?;
    match outside.listen(address) {
        Ok(()) => {}
        Err(_failed) => return Err(LoopFault::Wires),
    }
    write_header(alloc, &plan.settings, outside)?;
    live.run(alloc, keys, plan, outside)
}

/// Listens at this address, and serves each connection that is accepted with a session of its own, whose user is the last of those
/// that are left.
pub fn serve<O: Journal>(
    alloc: Global,
    keys: &KeyStore,
    plan: &LinePlan,
    address: &str,
    rbc: EtcsNumber,
    users: Vec<Box<dyn SafeUser>>,
    outside: &mut O,
) -> Result<Served, LoopFault>
    ensures ends { ServesOn (O.told outside.old) (O.told outside.new) (serving keys.now plan.now rbc (length users.items)) address.now (map mind users.items) result }
    // Nothing goes to a connection, and none is closed, before the lines that tell of it are written.
    ensures recorded { IsRecordedFirst (trace_header plan.now.settings) (O.told outside.old) (O.told outside.new) }
{
    let loop_plan = LoopPlan {
        settings: plan.settings,
        rbc,
        handed: users.len() as u64,
        turns: plan.turns,
        dials: false,
    };
    serve_users(alloc, keys, &loop_plan, address, users, outside)
}
