//! The loop with an application as a radio block centre, and as an engine.

ghost use Rattle.std.specs.Prelude.{◌≡◌, ◌∷◌, [], true, false, List};
ghost use Rattle.std.specs.Result.{is_ok};
ghost use Rattle.er_base.specs.LineTexts.{line_text};
ghost use Rattle.safety_automaton.specs.Keys.{KmacEntry};
ghost use Rattle.safety_automaton.specs.Pairs.{pair_entries};
ghost use Rattle.er_trace.specs.Texts.{header_words};
ghost use Rattle.outside.specs.Acts.{Wrote, Called, Listened};
ghost use Rattle.outside.specs.Doings.{Did};
ghost use Rattle.loop_session.specs.Parts.{Puts};
ghost use Rattle.application_serving.specs.Serving.{found_in_entries, Serves};
ghost use Rattle.application_loop.specs.Turning.{IsUnusedWith};

use crate::live_service::LiveService;
use crate::plan::{ServiceEnd, ServicePlan};
use crate::service_keys::ServiceKeys;
use er_settings::Settings;
use er_trace::print_header;
use journal::Journal;
use key_store::KeyStore;
use loop_session::{LoopFault, write_lines};
use outside::Outside;
use safety_automaton::PairKey;
use std::alloc::Global;

// Writes the header of the recording.
fn write_header<O: Outside>(
    alloc: Global,
    settings: &Settings,
    outside: &mut O,
) -> Result<(), LoopFault>
    ensures puts { Puts (O.told outside.old) (O.told outside.new) (Wrote (line_text (header_words settings.now)) true ∷ []) result }
{
    let mut line = Vec::new(alloc);
    print_header(settings, &mut line)?;
    write_lines(line.as_slice(), outside)
}

// Listens at an address.
fn listen<O: Outside>(address: &str, outside: &mut O) -> Result<(), LoopFault>
    ensures does { Did (O.told outside.old) (O.told outside.new) (Called (Listened address.now (is_ok result)) ∷ []) }
{
    match outside.listen(address) {
        Ok(()) => Ok(()),
        Err(_failed) => Err(LoopFault::Wires),
    }
}

// Listens for an application and for peers, and does the turns.
fn serve<O: Journal>(
    alloc: Global,
    live: &mut LiveService,
    plan: &ServicePlan<'_>,
    outside: &mut O,
) -> Result<ServiceEnd, LoopFault>
    ensures serves { (keys : List KmacEntry) → IsUnusedWith live.old keys → live.old.calls ≡ false → (O.told outside.old).wires.opened ≡ 0
        → Serves plan.now.settings (found_in_entries keys) (O.told outside.old) (O.told outside.new) }
{
    listen(plan.application, outside)?;
    listen(plan.address, outside)?;
    write_header(alloc, &plan.settings, outside)?;
    live.run(alloc, plan, outside)
}

// Listens for an application, opens the one connection, and does the turns.
fn call<O: Journal>(
    alloc: Global,
    live: &mut LiveService,
    pair: &PairKey,
    plan: &ServicePlan<'_>,
    outside: &mut O,
) -> Result<ServiceEnd, LoopFault>
    ensures serves { IsUnusedWith live.old (pair_entries pair.now) → live.old.calls ≡ true → (O.told outside.old).wires.opened ≡ 0
        → Serves plan.now.settings (found_in_entries (pair_entries pair.now)) (O.told outside.old) (O.told outside.new) }
{
    listen(plan.application, outside)?;
    let conn = match outside.dial(plan.address) {
        Ok(conn) => conn,
        Err(_failed) => return Err(LoopFault::Wires),
    };
    write_header(alloc, &plan.settings, outside)?;
    live.call(alloc, conn.0, pair, plan, outside)?;
    live.run(alloc, plan, outside)
}

/// Listens for an application and for peers, and answers each connection that is accepted with an end of its own, whose user is the application.
///
/// The keys are those of the store, until the application has the key file read again. So many turns of the wires are done at the most. Each event is
/// recorded before anything of it goes out.
pub fn serve_application<O: Journal>(
    alloc: Global,
    keys: KeyStore,
    plan: &ServicePlan<'_>,
    outside: &mut O,
) -> Result<ServiceEnd, LoopFault>
    ensures serves { (O.told outside.old).wires.opened ≡ 0
        → Serves plan.now.settings (found_in_entries keys) (O.told outside.old) (O.told outside.new) }
{
    let mut live = LiveService::new(alloc, ServiceKeys::File(keys))?;
    let end = serve(alloc, &mut live, plan, outside);
    drop(live);
    end
}

/// Listens for an application, begins a connection to the peer at the address, and calls with the key of this pair.
pub fn call_application<O: Journal>(
    alloc: Global,
    pair: &PairKey,
    plan: &ServicePlan<'_>,
    outside: &mut O,
) -> Result<ServiceEnd, LoopFault>
    ensures serves { (O.told outside.old).wires.opened ≡ 0
        → Serves plan.now.settings (found_in_entries (pair_entries pair.now)) (O.told outside.old) (O.told outside.new) }
{
    let own = PairKey::new(pair.engine(), pair.rbc(), pair.kmac().copied());
    let mut live = LiveService::new(alloc, ServiceKeys::Pair(own))?;
    let end = call(alloc, &mut live, pair, plan, outside);
    drop(live);
    end
}
