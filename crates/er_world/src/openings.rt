//! Links that are opened: two ends, of which the engine's has begun the set-up where there is one.

ghost use Rattle.std.specs.Prelude.{ℕ, ◌≡◌, [], List, Bool, IfOk};
ghost use Rattle.er_base.specs.declared.side.Side.TheVariants.{E};
ghost use Rattle.er_settings.specs.Values.{Settings as AnySettings};
ghost use Rattle.safety_pair_laws.specs.Openings.{OfFixed, OfKeys};
ghost use Rattle.drill_model.specs.Ends.{Start};
ghost use Rattle.drill_model.specs.Links.{OfPair, OfStations, OfStacks, give, opened_link};
ghost use Rattle.er_world.specs.KeptLinks.{LinkDoes, LinkWent, new_link};

use crate::link::Link;
use crate::place::Place;
use des_block::TripleKey;
use drill_ends::{DrillEnd, EndEvent, OneKey, StationEnd, StationPlan};
use er_base::{EtcsNumber, Moment, NoMemory};
use er_end::End;
use er_settings::Settings;
use safety_automaton::{Role, Safe};
use session_keys::{Kmac, SessionKeys};
use std::alloc::Global;

// An end that is let go at a `?` has a prover read how each of its parts is let go, at every such place. So here ends are let go in calls of `drop`.

/// A link of two ends that were just made, of which the first begins the set-up.
fn begun(
    alloc: Global,
    place: Place,
    e: DrillEnd,
    r: DrillEnd,
    keys: OneKey,
    moment: Moment,
    out: &mut Vec<u8>,
) -> Result<Link, NoMemory>
    ensures { IfOk result (λ link. LinkDoes (λ l. give l place.side Start) place.show place.number (new_link e r keys moment) link out.old.items out.new.items) }
{
    let mut link = Link::new(alloc, e, r, keys, moment);
    match link.give(alloc, place, &EndEvent::Start, out) {
        Ok(()) => Ok(link),
        Err(refused) => {
            drop(link);
            Err(refused)
        }
    }
}

// The KMAC that a radio block centre has, if it has one.
fn kmac_of(keys: Option<TripleKey>) -> Option<Kmac>
    ensures { result ≡ keys }
{
    match keys {
        Some(keys) => Some(Kmac::new(keys)),
        None => None,
    }
}

/// A link between two ends that are connected under these session keys, the engine's first, opened at a moment.
pub fn fixed(
    alloc: Global,
    engine: EtcsNumber,
    rbc: EtcsNumber,
    ke: TripleKey,
    kr: TripleKey,
    moment: Moment,
) -> Link
    ensures { (settings : AnySettings) (now : ℕ) (show : Bool) (number : ℕ) (text : List ℕ) → moment ≡ now
        → LinkWent (opened_link settings now (OfPair (OfFixed engine rbc ke kr))) show number [] result text text }
{
    let e = DrillEnd::Safe(Safe::fixed(engine, rbc, Role::Initiator, SessionKeys::new(ke)));
    let r = DrillEnd::Safe(Safe::fixed(rbc, engine, Role::Responder, SessionKeys::new(kr)));
    Link::new(alloc, e, r, OneKey::new(engine, rbc, None), moment)
}

/// A link between two ends that aren't connected yet, opened at a moment; the engine has begun the set-up.
pub fn called(
    alloc: Global,
    place: Place,
    engine: EtcsNumber,
    rbc: EtcsNumber,
    ke: TripleKey,
    kr: Option<TripleKey>,
    ra: u64,
    rb: u64,
    moment: Moment,
    out: &mut Vec<u8>,
) -> Result<Link, NoMemory>
    ensures { IfOk result (λ link. place.side ≡ E → (settings : AnySettings) (now : ℕ) → moment ≡ now
        → LinkWent (opened_link settings now (OfPair (OfKeys engine rbc ke kr ra rb))) place.show place.number [] link out.old.items out.new.items) }
{
    drill_ends::laws::keys();
    let e = DrillEnd::Safe(Safe::initiator(engine, rbc, Kmac::new(ke), rb));
    let r = DrillEnd::Safe(Safe::responder(rbc, ra));
    begun(
        alloc,
        place,
        e,
        r,
        OneKey::new(engine, rbc, kmac_of(kr)),
        moment,
        out,
    )
}

/// A link between two stacks, opened at a moment; the engine's has begun the set-up.
pub fn stacked(
    alloc: Global,
    place: Place,
    settings: &Settings,
    engine: EtcsNumber,
    rbc: EtcsNumber,
    ke: TripleKey,
    kr: Option<TripleKey>,
    ra: u64,
    rb: u64,
    moment: Moment,
    out: &mut Vec<u8>,
) -> Result<Link, NoMemory>
    ensures { IfOk result (λ link. place.side ≡ E → (now : ℕ) → moment ≡ now
        → LinkWent (opened_link settings.now now (OfStacks engine rbc ke kr ra rb)) place.show place.number [] link out.old.items out.new.items) }
{
    drill_ends::laws::keys();
    er_end::laws::standing();
    drill_model::laws::stacks_report();
    // a field that is read tells that the settings are in their ranges, and a moment that is read the same of it
    let _ = &settings.window;
    let _within = moment.get();
    let e = End::call(alloc, settings, engine, rbc, Kmac::new(ke), rb, moment)?;
    let r = match End::answer(alloc, settings, rbc, ra, moment) {
        Ok(r) => r,
        Err(refused) => {
            drop(e);
            return Err(refused);
        }
    };
    begun(
        alloc,
        place,
        DrillEnd::Stack(e),
        DrillEnd::Stack(r),
        OneKey::new(engine, rbc, kmac_of(kr)),
        moment,
        out,
    )
}

/// A link between two stations, both with selective reject or both without, opened at a moment; the calling one has begun the set-up.
pub fn wired(
    alloc: Global,
    place: Place,
    plan: &StationPlan,
    moment: Moment,
    out: &mut Vec<u8>,
) -> Result<Link, NoMemory>
    ensures { IfOk result (λ link. place.side ≡ E → (now : ℕ) → moment ≡ now
        → LinkWent (opened_link plan.now.settings now (OfStations plan.now.selective)) place.show place.number [] link out.old.items out.new.items) }
{
    let e = StationEnd::new(alloc, true, plan)?;
    let r = match StationEnd::new(alloc, false, plan) {
        Ok(r) => r,
        Err(refused) => {
            drop(e);
            return Err(refused);
        }
    };
    let nobody = EtcsNumber::new(0);
    let keys = OneKey::new(nobody, nobody, None);
    begun(
        alloc,
        place,
        DrillEnd::Station(e),
        DrillEnd::Station(r),
        keys,
        moment,
        out,
    )
}
