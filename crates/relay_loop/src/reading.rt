//! What comes from a side is read and taken.

ghost use Rattle.std.specs.Prelude.{◌≡◌, ◌≤◌, ℕ, false, [], length, take, OnOk};
ghost use Rattle.std.specs.Result.{MatchResult};
ghost use Rattle.relay_script.specs.declared.script.Script as model;
ghost use Rattle.relay_script.specs.ScriptRanges.{IsScriptInRange};
ghost use Rattle.relay_loop.specs.WaySteps.{WayMoves, StaysOpen, EndsWay};
ghost use Rattle.relay_loop.specs.RelayDeeds.{IsLastDone};
ghost use Rattle.relay_loop.specs.Reading.{Hears, HearsOnly, TakesIn, PutsNews};

use crate::fault::RelayFault;
use crate::lines::{put_came, put_end};
use crate::stamp::Stamp;
use crate::way::Way;
use crate::workspace::Workspace;
use er_base::{NoMemory, Room, Side};
use link_trait::{Conn, ReadAnswer};
use outside::Outside;
use relay_model::laws::{closed_stays, given_begins};
use relay_script::Script;
use std::alloc::Global;

// The most octets of a unit, and of a line of other octets.
const MOST_OCTETS: usize = 4_096;

// A line of what came, where something is held no longer.
fn put_some(at: Stamp, side: Side, octets: &[u8], lines: &mut Vec<u8>) -> Result<(), NoMemory>
    ensures { OnOk result (PutsNews at.number lines.old.items lines.new.items) }
{
    if octets.is_empty() {
        return Ok(());
    }
    put_came(at, side, octets, lines)
}

// The first octets of a slice.
fn front(octets: &[u8], count: usize) -> &[u8]
    requires { count ≤ length octets.now }
    ensures { result.now ≡ take count octets.now }
{
    &octets[..count]
}

// Takes octets that came, and puts a line for each unit and for other octets. Nothing is taken behind a unit with which a line closes the connection.
fn take_all(
    alloc: Global,
    script: &Script,
    at: Stamp,
    octets: &[u8],
    way: &mut Way,
    lines: &mut Vec<u8>,
) -> Result<(), NoMemory>
    requires range { IsScriptInRange script.now }
    requires unended { way.old.ended ≡ false }
    requires alive { way.old.lost ≡ false }
    ensures takes { OnOk result (WayMoves script.now octets.now [] way.old way.new) }
    ensures stays { OnOk result (StaysOpen way.old way.new) }
    ensures puts { OnOk result (PutsNews at.number lines.old.items lines.new.items) }
{
    closed_stays();
    let mut came = Room::with_capacity(alloc, MOST_OCTETS)?;
    let mut rest = octets;
    while !rest.is_empty() {
        if way.carrier.is_closed() {
            return Ok(());
        }
        let used = way.take(alloc, script, at.moment, rest, &mut came)?;
        put_some(at, way.side, came.held(), lines)?;
        let (_, behind) = rest.split_at(used);
        rest = behind;
    }
    Ok(())
}

/// A side ended or failed: a line of what was held, and one that it ended.
pub(crate) fn end(
    alloc: Global,
    at: Stamp,
    way: &mut Way,
    lines: &mut Vec<u8>,
) -> Result<(), NoMemory>
    requires unended { way.old.ended ≡ false }
    ensures ends { OnOk result ((script : model.Script) → WayMoves script [] [] way.old way.new) }
    ensures ended { OnOk result (EndsWay way.old way.new) }
    ensures puts { OnOk result (PutsNews at.number lines.old.items lines.new.items) }
{
    let mut came = Room::with_capacity(alloc, MOST_OCTETS)?;
    way.end(alloc, at.moment, &mut came)?;
    put_some(at, way.side, came.held(), lines)?;
    put_end(at, way.side, lines)
}

// What comes of a read, by its answer.
fn take_in(
    alloc: Global,
    script: &Script,
    at: Stamp,
    answer: ReadAnswer,
    octets: &[u8],
    way: &mut Way,
    lines: &mut Vec<u8>,
) -> Result<(), NoMemory>
    requires range { IsScriptInRange script.now }
    requires unended { way.old.ended ≡ false }
    requires alive { way.old.lost ≡ false }
    requires fits { (n : ℕ) → answer ≡ ReadAnswer.Some n → n ≤ length octets.now }
    ensures takes { OnOk result (TakesIn script.now answer octets.now way.old way.new) }
    ensures puts { OnOk result (PutsNews at.number lines.old.items lines.new.items) }
{
    match answer {
        ReadAnswer::Some(count) => take_all(alloc, script, at, front(octets, count), way, lines),
        ReadAnswer::NotNow => Ok(()),
        ReadAnswer::End | ReadAnswer::Failed => end(alloc, at, way, lines),
    }
}

// One read of a side, and what comes of it.
fn read<O: Outside>(
    script: &Script,
    at: Stamp,
    from: Conn,
    way: &mut Way,
    workspace: &mut Workspace,
    outside: &mut O,
) -> Result<(), NoMemory>
    requires range { IsScriptInRange script.now }
    requires unended { way.old.ended ≡ false }
    requires alive { way.old.lost ≡ false }
    ensures hears { MatchResult result (λ _. Hears script.now from.0 way.old way.new (O.told outside.old) (O.told outside.new))
        (λ _. HearsOnly script.now from.0 way.old (O.told outside.old) (O.told outside.new)) }
    ensures puts { OnOk result (PutsNews at.number workspace.old.lines.items workspace.new.lines.items) }
{
    closed_stays();
    given_begins();
    let answer = outside.read(from, &mut workspace.read);
    take_in(
        workspace.alloc,
        script,
        at,
        answer,
        &workspace.read,
        way,
        &mut workspace.lines,
    )
}

/// Octets may have come from a side: it is read once, unless a line has closed the connection behind what came, or too much waits. Then it is read when less
/// waits.
pub(crate) fn hear<O: Outside>(
    script: &Script,
    at: Stamp,
    from: Conn,
    way: &mut Way,
    workspace: &mut Workspace,
    outside: &mut O,
) -> Result<(), RelayFault>
    requires range { IsScriptInRange script.now }
    requires unended { way.old.ended ≡ false }
    ensures hears { MatchResult result (λ _. Hears script.now from.0 way.old way.new (O.told outside.old) (O.told outside.new))
        (λ fault. IsLastDone fault [] × HearsOnly script.now from.0 way.old (O.told outside.old) (O.told outside.new)) }
    ensures puts { OnOk result (PutsNews at.number workspace.old.lines.items workspace.new.lines.items) }
{
    if way.carrier.is_closed() {
        return Ok(());
    }
    if way.lost {
        return Ok(());
    }
    way.unread = way.is_full();
    if way.unread {
        return Ok(());
    }
    read(script, at, from, way, workspace, outside)?;
    Ok(())
}
