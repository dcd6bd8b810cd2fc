//! A loop that dials.

ghost use Rattle.std.specs.Prelude.{◌≡◌, true, length, map};
ghost use Rattle.loop_model.specs.Journals.{trace_header};
ghost use Rattle.readiness_loop.specs.Claims.{dialling, DialsOn, caller_of};
ghost use Rattle.readiness_loop.specs.Courses.{around, Dials};
ghost use Rattle.readiness_loop.specs.Lives.{pair_plan, pair_caller};
ghost use Rattle.readiness_loop.specs.Recorded.{IsRecordedFirst};

use crate::line_plan::{LinePlan, LoopStop, Served};
use crate::live_loop::LiveLoop;
use crate::loop_plan::{LoopPlan, see_settings};
use crate::serving::write_header;
use er_users::SafeUser;
use journal::Journal;
use loop_model::laws;
use loop_session::LoopFault;
use safety_automaton::PairKey;
use std::alloc::Global;

// A loop that dials, over users of any one type.
fn dial_users<U: SafeUser, O: Journal>(
    alloc: Global,
    pair: &PairKey,
    plan: &LoopPlan,
    address: &str,
    users: Vec<U>,
    outside: &mut O,
) -> Result<Served, LoopFault>
    requires same { plan.now.rbc ≡ pair.now.rbc }
    requires dials { plan.now.dials ≡ true }
    ensures does { Dials (pair_plan pair.now plan.now) (pair_caller pair.now)
        (around (O.told outside.old)) (around (O.told outside.new)) (map U.mind users.items) (O.told outside.old).words (O.told outside.new).words address.now result }
    ensures recorded { IsRecordedFirst (trace_header plan.now.settings) (O.told outside.old) (O.told outside.new) }
{
    laws::journal();
    laws::octets();
    laws::open_connections();
    laws::octets_taken();
    laws::recordings();
    laws::order();
    laws::replies();
    laws::hearing();
    laws::faults();
    laws::turns();
    loop_session::laws::standing();
    see_settings(&plan.settings);
    let mut live = LiveLoop::new(alloc, users)?;
    let conn = match outside.dial(address) {
        Ok(conn) => conn,
        Err(_failed) => return Err(LoopFault::Wires),
    };
    write_header(alloc, &plan.settings, outside)?;
    if !live.open(alloc, conn, pair, plan, outside)? {
        return Ok(Served {
            turns: 0,
            why: LoopStop::Closed,
        });
    }
    live.run(alloc, pair, plan, outside)
}

/// Begins a connection to the peer at this address, and calls with the key of this pair and the last of the users.
pub fn dial<O: Journal>(
    alloc: Global,
    pair: &PairKey,
    plan: &LinePlan,
    address: &str,
    users: Vec<Box<dyn SafeUser>>,
    outside: &mut O,
) -> Result<Served, LoopFault>
    ensures ends { DialsOn (O.told outside.old) (O.told outside.new) (dialling pair.now.kmac plan.now pair.now.engine pair.now.rbc (length users.items))
        (caller_of pair.now.engine pair.now.kmac) address.now (map mind users.items) result }
    // Nothing goes to a connection, and none is closed, before the lines that tell of it are written.
    ensures recorded { IsRecordedFirst (trace_header plan.now.settings) (O.told outside.old) (O.told outside.new) }
{
    let loop_plan = LoopPlan {
        settings: plan.settings,
        rbc: pair.rbc(),
        handed: users.len() as u64,
        turns: plan.turns,
        dials: true,
    };
    dial_users(alloc, pair, &loop_plan, address, users, outside)
}
