//! `audit KEYS TAP` and `audit KEYS TAP ends`: what was heard of tapped links, judged text by text, and how each stream ended.

ghost use Rattle.safety_automaton.specs.Keys.{key_at};
ghost use Rattle.er_tap.specs.Files.{tap_of};
ghost use Rattle.er_tap.specs.Ranges.{CanBeRead};
ghost use Rattle.tap_model.specs.Lines.{fault_of_tap_lines};
ghost use Rattle.outside.specs.Scripts.{Does};
ghost use Rattle.er_statuses.specs.ScriptEnds.{end_of_run};
ghost use Rattle.er_program.specs.AuditWriting.{TellsTapFault};
ghost use Rattle.er_program.specs.KeyedScripts.{audits_lines, audits_read};

use er_base::TextFault;
use er_statuses::acting::{out_of_form, told_line};
use er_statuses::{Status, Stop};
use er_tap::{Tap, read};
use key_store::KeyStore;
use link_audit::audit;
use outside::Outside;
use std::alloc::Global;
use tap_model::AuditFault;

// Why the audit ends before its last line.
fn not_audited<O: Outside>(
    alloc: Global,
    fault: AuditFault,
    outside: &mut O,
) -> Result<Status, Stop>
    ensures tells { TellsTapFault fault (O.told outside.old) (O.told outside.new) (end_of_run result) }
{
    match fault {
        AuditFault::NoLink { line, .. } => told_line(alloc, 3, line, b"nolink", outside),
        AuditFault::LinkTwice { line, .. } => told_line(alloc, 3, line, b"twice", outside),
        AuditFault::Sink => Err(Stop::Sink),
        AuditFault::NoMemory(want) => Err(Stop::NoMemory(want)),
    }
}

// Audits a tap that was read, and gives back what is told of ends.
fn audit_lines<O: Outside>(
    alloc: Global,
    with_ends: bool,
    store: &KeyStore,
    tap: &Tap,
    told: &mut Vec<u8>,
    outside: &mut O,
) -> Result<Status, Stop>
    requires { CanBeRead tap.now }
    ensures does { Does (audits_lines with_ends (key_at store.now) tap.now.lines (fault_of_tap_lines tap.now.lines)) (O.told outside.old) (O.told outside.new) (end_of_run result) }
{
    match audit(alloc, store, tap, with_ends, told, outside) {
        Ok(()) => Ok(Status(0)),
        Err(fault) => not_audited(alloc, fault, outside),
    }
}

/// The octets of the tap's file. What is told of ends is given back.
pub fn audit_file<O: Outside>(
    alloc: Global,
    with_ends: bool,
    store: &KeyStore,
    octets: &[u8],
    told: &mut Vec<u8>,
    outside: &mut O,
) -> Result<Status, Stop>
    ensures does { Does (audits_read with_ends store.now (tap_of octets.now)) (O.told outside.old) (O.told outside.new) (end_of_run result) }
{
    match read(alloc, octets) {
        Ok(tap) => audit_lines(alloc, with_ends, store, &tap, told, outside),
        Err(TextFault::At { line, why }) => out_of_form(alloc, line, why, outside),
        Err(TextFault::NoMemory(want)) => Err(Stop::NoMemory(want)),
    }
}
