//! Which lines name a unit, and what they make of it.

ghost use Rattle.std.specs.Prelude.{◌≡◌, ◌++◌, ◌∷◌, [], ℕ, List, IfOk, OnOk};
ghost use Rattle.relay_script.specs.declared.unit_kind.UnitKind.TheVariants.{Any};
ghost use Rattle.relay_script.specs.ScriptRanges.{IsLineInRange, IsScriptInRange};
ghost use Rattle.relay_model.specs.UnitKinds.{kinds_in};
ghost use Rattle.relay_model.specs.Loads.{is_same_side, line_names, load_of_unit};
ghost use Rattle.relay_carrier.specs.Counting.{CountsUnits, KeepsLoad};
ghost use Rattle.relay_carrier.specs.Applying.{Applies};
ghost use Rattle.relay_carrier.specs.Kinds.{kinds_but_any};

use crate::counts::Counts;
use crate::load::Load;
use crate::unit_kinds::UnitKinds;
use er_base::{NoMemory, Side};
use relay_script::{Script, ScriptLine};
use std::alloc::Global;

fn is_same(one: Side, other: Side) -> bool
    ensures { result ≡ is_same_side one other }
{
    match one {
        Side::E => matches!(other, Side::E),
        Side::R => matches!(other, Side::R),
    }
}

// Whether a line names a unit of a side, of which it is the newest that was counted.
fn names(line: &ScriptLine, side: Side, kinds: &UnitKinds, counts: &Counts) -> bool
    requires { IsLineInRange line.now }
    ensures { (before : List (List ℕ)) (unit : List ℕ) → Any ∷ kinds_but_any kinds.now ≡ kinds_in unit → CountsUnits counts.now (before ++ unit ∷ [])
        → result ≡ line_names line.now side before unit }
{
    if !is_same(line.side, side) {
        return false;
    }
    if !kinds.has_at(line.kind.place()) {
        return false;
    }
    counts.of(line.kind) == line.number as u64
}

// What a line makes of what is given, where it names the unit.
fn apply(
    alloc: Global,
    line: &ScriptLine,
    side: Side,
    kinds: &UnitKinds,
    counts: &Counts,
    unit: &[u8],
    load: &mut Load,
) -> Result<(), NoMemory>
    requires range { IsLineInRange line.now }
    requires kinds { Any ∷ kinds_but_any kinds.now ≡ kinds_in unit.now }
    ensures { OnOk result ((before : List (List ℕ)) → CountsUnits counts.now (before ++ unit.now ∷ [])
        → Applies line.now side before unit.now load.old load.new) }
{
    if !names(line, side, kinds, counts) {
        return Ok(());
    }
    load.change(alloc, &line.change, unit)
}

/// What is given for a unit of a side, where it is the newest that was counted.
pub fn load_of(
    alloc: Global,
    script: &Script,
    side: Side,
    kinds: &UnitKinds,
    counts: &Counts,
    unit: &[u8],
) -> Result<Load, NoMemory>
    requires range { IsScriptInRange script.now }
    requires kinds { Any ∷ kinds_but_any kinds.now ≡ kinds_in unit.now }
    ensures { IfOk result (λ kept. (before : List (List ℕ)) → CountsUnits counts.now (before ++ unit.now ∷ [])
        → KeepsLoad kept (load_of_unit script.now.lines side before unit.now)) }
{
    let mut load = Load::of(alloc, unit)?;
    for line in script.lines.as_slice() {
        apply(alloc, line, side, kinds, counts, unit, &mut load)?;
    }
    Ok(load)
}
