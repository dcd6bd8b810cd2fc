//! A connection of a relay: its two sockets, and what goes each way between them.

ghost use Rattle.std.specs.Prelude.{◌≡◌, ◌≢◌, ◌⊎◌, true, false, None, [], List, IfOk, OnOk};
ghost use Rattle.relay_script.specs.declared.script.Script as model;
ghost use Rattle.relay_script.specs.ScriptRanges.{IsScriptInRange};
ghost use Rattle.relay_loop.specs.Ways.{IsUndue};
ghost use Rattle.relay_loop.specs.WaySteps.{PrintsGiven};
ghost use Rattle.relay_loop.specs.declared.sending.Flow.TheVariants as flow;
ghost use Rattle.relay_loop.specs.Sending.{Sends};
ghost use Rattle.relay_loop.specs.Giving.{PrintsBoth, WritesBoth, failed_of};
ghost use Rattle.relay_loop.specs.Reading.{PutsNews};
ghost use Rattle.relay_loop.specs.RelayDeeds.{RelayDeed};
ghost use Rattle.relay_loop.specs.Links.{KeepsLink, IsUntouched, IsUntold, IsOverLink, IsIdleLink, LosesWay, FailsWay, FailsLink};
ghost use Rattle.relay_loop.specs.Links.{EndsVisit, EndsRound, EndsSettled, EndsAsk};

use crate::fault::RelayFault;
use crate::lines::put_closed;
use crate::printing::write_lines;
use crate::reading::{end, hear};
use crate::sending::{Flow, send};
use crate::stamp::Stamp;
use crate::way::Way;
use crate::workspace::Workspace;
use er_base::{NoMemory, Side};
use link_trait::Conn;
use outside::Outside;
use relay_model::laws::closed_stays;
use relay_script::Script;
use std::alloc::Global;

/// What the connections are asked, each in turn.
#[derive(Clone, Copy)]
pub(crate) enum Question {
    /// Whether something is due.
    Due,
    /// Octets may wait at this socket, or its peer has closed.
    Readable(Conn),
    /// There may be room for writing to this socket.
    Writable(Conn),
}

// Why a connection is visited.
#[derive(Clone, Copy)]
enum Visit {
    // Octets may have come from this side.
    Read(Side),
    // There may be room for writing, or something is due.
    Give,
}

/// A connection.
#[derive(Drop)]
pub(crate) struct Link {
    // From 1, in the order in which they were accepted.
    number: u64,
    // Who called, and who was dialled.
    e: Conn,
    r: Conn,
    from_e: Way,
    from_r: Way,
}

impl Link {
    /// Nothing came from either side.
    pub(crate) fn new(alloc: Global, number: u64, e: Conn, r: Conn) -> Result<Link, NoMemory>
        ensures sockets { IfOk result (λ link. (link.e ≡ e) × (link.r ≡ r)) }
        ensures number { IfOk result (λ link. link.number ≡ number) }
        ensures keeps { IfOk result (λ link. (script : model.Script) (done : List RelayDeed) → e.0 ≢ r.0 → IsUntold number done → IsUntouched e.0 done
            → IsUntouched r.0 done → KeepsLink script done link) }
    {
        Ok(Link {
            number,
            e,
            r,
            from_e: Way::new(alloc, Side::E)?,
            from_r: Way::new(alloc, Side::R)?,
        })
    }

    // The side whose socket this is.
    fn side_of(&self, conn: Conn) -> Option<Side> {
        if conn.0 == self.e.0 {
            return Some(Side::E);
        }
        if conn.0 == self.r.0 {
            return Some(Side::R);
        }
        None
    }

    // Whether a side ended or failed: nothing more is read of either.
    fn is_ending(&self) -> bool
        ensures from_e { result ≡ false → self.now.from_e.ended ≡ false }
        ensures from_r { result ≡ false → self.now.from_r.ended ≡ false }
    {
        if self.from_e.ended {
            return true;
        }
        self.from_r.ended
    }

    // Whether a line closes the connection: nothing is read or given any more but what was printed before.
    fn is_closing(&self) -> bool
        ensures closes { result ≡ true → (self.now.from_e.closing ≡ true) ⊎ (self.now.from_r.closing ≡ true) }
        ensures from_e { result ≡ false → self.now.from_e.closing ≡ false }
        ensures from_r { result ≡ false → self.now.from_r.closing ≡ false }
    {
        if self.from_e.closing {
            return true;
        }
        self.from_r.closing
    }

    // Whether both sides are to be closed now.
    fn is_over(&self) -> bool
        ensures { result ≡ true → IsOverLink self.now }
    {
        if self.from_e.closing {
            return self.from_e.printed.is_empty();
        }
        if self.from_r.closing {
            return self.from_r.printed.is_empty();
        }
        if !self.is_ending() {
            return false;
        }
        if !self.from_e.is_idle() {
            return false;
        }
        self.from_r.is_idle()
    }

    /// The first moment at which something is due.
    pub(crate) fn until(&self) -> Option<u64>
        ensures { result ≡ None → IsIdleLink self.now }
    {
        if self.is_closing() {
            return None;
        }
        earlier(self.from_e.first_due(), self.from_r.first_due())
    }

    // Octets may have come from a side.
    fn hear<O: Outside>(
        &mut self,
        script: &Script,
        at: Stamp,
        side: Side,
        workspace: &mut Workspace,
        outside: &mut O,
    ) -> Result<(), RelayFault>
        requires range { IsScriptInRange script.now }
        requires number { at.number ≡ self.old.number }
        ensures { EndsVisit result script.now self.old self.new workspace.old.lines.items workspace.new.lines.items (O.told outside.old) (O.told outside.new) }
    {
        if self.is_closing() {
            return Ok(());
        }
        if self.is_ending() {
            return Ok(());
        }
        match side {
            Side::E => hear(script, at, self.e, &mut self.from_e, workspace, outside),
            Side::R => hear(script, at, self.r, &mut self.from_r, workspace, outside),
        }
    }

    // What is due is told, but for what would be given behind a close.
    fn print_due(&mut self, at: Stamp, lines: &mut Vec<u8>) -> Result<(), NoMemory>
        ensures { OnOk result (PrintsBoth at self.old self.new lines.old.items lines.new.items) }
    {
        print_unless(self.from_r.closing, at, &mut self.from_e, lines)?;
        print_unless(self.from_e.closing, at, &mut self.from_r, lines)?;
        Ok(())
    }

    // What was told is written, but for what would be given behind a close. The side to which a write failed, if one did.
    fn send<O: Outside>(&mut self, outside: &mut O) -> Option<Side>
        ensures { WritesBoth result self.old self.new (O.told outside.old) (O.told outside.new) }
    {
        let to_r = send_unless(self.from_r.closing, self.r, &mut self.from_e, outside);
        let to_e = send_unless(self.from_e.closing, self.e, &mut self.from_r, outside);
        failed_side(to_r, to_e)
    }

    // What is due is told, and behind that it is written. Whether a write failed: then what was held of the side that failed is due too.
    fn give_once<O: Outside>(
        &mut self,
        at: Stamp,
        workspace: &mut Workspace,
        outside: &mut O,
    ) -> Result<bool, RelayFault>
        requires number { at.number ≡ self.old.number }
        ensures { (script : model.Script) → EndsRound result script self.old self.new workspace.old.lines.items workspace.new.lines.items
            (O.told outside.old) (O.told outside.new) }
    {
        self.print_due(at, &mut workspace.lines)?;
        write_lines(&mut workspace.lines, outside)?;
        match self.send(outside) {
            Some(side) => {
                self.fail(at, side, workspace)?;
                Ok(true)
            }
            None => Ok(false),
        }
    }

    // A write to a side failed: what waits for it goes, and what was held of it is passed, unless the connection is closed anyway.
    fn fail(&mut self, at: Stamp, side: Side, workspace: &mut Workspace) -> Result<(), NoMemory>
        ensures { OnOk result (FailsLink side at.number self.old self.new workspace.old.lines.items workspace.new.lines.items) }
    {
        let closing = self.is_closing();
        match side {
            Side::E => fail(closing, at, &mut self.from_e, &mut self.from_r, workspace),
            Side::R => fail(closing, at, &mut self.from_r, &mut self.from_e, workspace),
        }
    }

    // What is due is given. Where a write fails, what was held of the side that failed is due too, and each side fails once at the most.
    fn give<O: Outside>(
        &mut self,
        at: Stamp,
        workspace: &mut Workspace,
        outside: &mut O,
    ) -> Result<(), RelayFault>
        requires number { at.number ≡ self.old.number }
        ensures { (script : model.Script) → EndsSettled result script self.old self.new workspace.old.lines.items workspace.new.lines.items
            (O.told outside.old) (O.told outside.new) }
    {
        if !self.give_once(at, workspace, outside)? {
            return Ok(());
        }
        if !self.give_once(at, workspace, outside)? {
            return Ok(());
        }
        self.give_once(at, workspace, outside)?;
        Ok(())
    }

    // A side that wasn't read since too much waited is read where less waits now.
    #[tactic(auto, using(crate::proofs::LinkCalls::on_none))]
    fn hear_again<O: Outside>(
        &mut self,
        script: &Script,
        at: Stamp,
        side: Side,
        workspace: &mut Workspace,
        outside: &mut O,
    ) -> Result<(), RelayFault>
        requires range { IsScriptInRange script.now }
        requires number { at.number ≡ self.old.number }
        ensures { EndsVisit result script.now self.old self.new workspace.old.lines.items workspace.new.lines.items (O.told outside.old) (O.told outside.new) }
    {
        if !self.is_unread(side) {
            return Ok(());
        }
        self.hear(script, at, side, workspace, outside)
    }

    // Whether a side wasn't read since too much waited.
    fn is_unread(&self, side: Side) -> bool {
        match side {
            Side::E => self.from_e.unread,
            Side::R => self.from_r.unread,
        }
    }

    // What came is taken, where it is asked for.
    #[tactic(auto, using(crate::proofs::LinkCalls::on_none))]
    fn hear_of<O: Outside>(
        &mut self,
        script: &Script,
        at: Stamp,
        visit: Visit,
        workspace: &mut Workspace,
        outside: &mut O,
    ) -> Result<(), RelayFault>
        requires range { IsScriptInRange script.now }
        requires number { at.number ≡ self.old.number }
        ensures { EndsVisit result script.now self.old self.new workspace.old.lines.items workspace.new.lines.items (O.told outside.old) (O.told outside.new) }
    {
        match visit {
            Visit::Read(side) => self.hear(script, at, side, workspace, outside),
            Visit::Give => Ok(()),
        }
    }

    // What came is taken, and what is due is given, of a side too that is read again.
    fn go_on<O: Outside>(
        &mut self,
        script: &Script,
        at: Stamp,
        visit: Visit,
        workspace: &mut Workspace,
        outside: &mut O,
    ) -> Result<(), RelayFault>
        requires range { IsScriptInRange script.now }
        requires number { at.number ≡ self.old.number }
        ensures { EndsSettled result script.now self.old self.new workspace.old.lines.items workspace.new.lines.items
            (O.told outside.old) (O.told outside.new) }
    {
        self.hear_of(script, at, visit, workspace, outside)?;
        self.give(at, workspace, outside)?;
        self.hear_again(script, at, Side::E, workspace, outside)?;
        self.hear_again(script, at, Side::R, workspace, outside)?;
        self.give(at, workspace, outside)?;
        Ok(())
    }

    // Why it is visited, where it is.
    fn visit_for(&self, asked: Question, moment: u64) -> Option<Visit> {
        match asked {
            Question::Due => match self.until() {
                Some(until) if until <= moment => Some(Visit::Give),
                _ => None,
            },
            Question::Readable(conn) => match self.side_of(conn) {
                Some(side) => Some(Visit::Read(side)),
                None => None,
            },
            Question::Writable(conn) => match self.side_of(conn) {
                Some(_) => Some(Visit::Give),
                None => None,
            },
        }
    }

    /// It is visited, where what is asked is its own. Whether it stays; else it was closed.
    #[tactic(auto, using(crate::proofs::LinkCalls::stays_none))]
    pub(crate) fn ask<O: Outside>(
        &mut self,
        script: &Script,
        moment: u64,
        asked: Question,
        workspace: &mut Workspace,
        outside: &mut O,
    ) -> Result<bool, RelayFault>
        requires range { IsScriptInRange script.now }
        ensures { EndsAsk result script.now self.old self.new workspace.old.lines.items workspace.new.lines.items (O.told outside.old) (O.told outside.new) }
    {
        match self.visit_for(asked, moment) {
            Some(visit) => self.visit(script, moment, visit, workspace, outside),
            None => Ok(true),
        }
    }

    // A visit: what came is taken, and what is due is given. Whether the connection stays; else it is closed.
    fn visit<O: Outside>(
        &mut self,
        script: &Script,
        moment: u64,
        visit: Visit,
        workspace: &mut Workspace,
        outside: &mut O,
    ) -> Result<bool, RelayFault>
        requires range { IsScriptInRange script.now }
        ensures { EndsAsk result script.now self.old self.new workspace.old.lines.items workspace.new.lines.items (O.told outside.old) (O.told outside.new) }
    {
        closed_stays();
        let at = Stamp {
            moment,
            number: self.number,
        };
        self.go_on(script, at, visit, workspace, outside)?;
        if !self.is_over() {
            return Ok(true);
        }
        self.close(at, workspace, outside)?;
        Ok(false)
    }

    // Both sides are closed.
    fn close<O: Outside>(
        &self,
        at: Stamp,
        workspace: &mut Workspace,
        outside: &mut O,
    ) -> Result<(), RelayFault>
        requires number { at.number ≡ self.now.number }
        ensures { (script : model.Script) → EndsVisit result script self.now self.now workspace.old.lines.items workspace.new.lines.items
            (O.told outside.old) (O.told outside.new) }
    {
        put_closed(at, &mut workspace.lines)?;
        write_lines(&mut workspace.lines, outside)?;
        outside.close(self.e);
        outside.close(self.r);
        Ok(())
    }
}

// What is due of a way is told, unless the other way closes the connection.
#[tactic(auto, using(crate::proofs::WayPrints::prints_none))]
fn print_unless(
    is_closing: bool,
    at: Stamp,
    way: &mut Way,
    lines: &mut Vec<u8>,
) -> Result<(), NoMemory>
    ensures prints { OnOk result (PrintsGiven at way.old way.new lines.old.items lines.new.items) }
    ensures undue { OnOk result (is_closing ≡ false → way.new.lost ≡ false → IsUndue way.new.latest way.new.waits.items) }
{
    if is_closing {
        return Ok(());
    }
    way.print_due(at, lines)
}

// What was told of a way is written, unless the other way closes the connection.
#[tactic(auto, using(crate::proofs::WaySends::sends_none))]
fn send_unless<O: Outside>(is_closing: bool, to: Conn, way: &mut Way, outside: &mut O) -> Flow
    ensures { Sends is_closing result to.0 way.old way.new (O.told outside.old) (O.told outside.new) }
{
    if is_closing {
        return Flow::Going;
    }
    send(way, to, outside)
}

// The side to which a write failed.
fn failed_side(to_r: Flow, to_e: Flow) -> Option<Side>
    ensures { result ≡ failed_of to_r to_e }
{
    match to_r {
        Flow::Failing => Some(Side::R),
        Flow::Going => failed_at(to_e),
        Flow::PutOff => failed_at(to_e),
    }
}

// Whether a write to e failed, where none to r did.
fn failed_at(to_e: Flow) -> Option<Side>
    ensures going { result ≡ failed_of flow.Going to_e }
    ensures put_off { result ≡ failed_of flow.PutOff to_e }
{
    match to_e {
        Flow::Failing => Some(Side::E),
        Flow::Going => None,
        Flow::PutOff => None,
    }
}

// A side failed: what waits for it goes, and it ends, unless the connection is closed anyway.
fn fail(
    is_closing: bool,
    at: Stamp,
    failed: &mut Way,
    towards: &mut Way,
    workspace: &mut Workspace,
) -> Result<(), NoMemory>
    ensures loses { OnOk result (LosesWay towards.old towards.new) }
    ensures fails { OnOk result (FailsWay failed.old failed.new) }
    ensures over { OnOk result (is_closing ≡ false → failed.new.ended ≡ true) }
    ensures puts { OnOk result (PutsNews at.number workspace.old.lines.items workspace.new.lines.items) }
{
    towards.lose();
    end_once(is_closing, at, failed, workspace)
}

// A side ends, unless it has ended before or the connection is closed anyway.
#[tactic(auto, using(crate::proofs::WayCalls::moves_none))]
fn end_once(
    is_closing: bool,
    at: Stamp,
    way: &mut Way,
    workspace: &mut Workspace,
) -> Result<(), NoMemory>
    ensures fails { OnOk result (FailsWay way.old way.new) }
    ensures over { OnOk result (is_closing ≡ false → way.new.ended ≡ true) }
    ensures puts { OnOk result (PutsNews at.number workspace.old.lines.items workspace.new.lines.items) }
{
    if is_closing {
        return Ok(());
    }
    if way.ended {
        return Ok(());
    }
    end(workspace.alloc, at, way, &mut workspace.lines)
}

/// The earlier of two moments, where they are.
pub(crate) fn earlier(one: Option<u64>, other: Option<u64>) -> Option<u64>
    ensures first { result ≡ None → one ≡ None }
    ensures second { result ≡ None → other ≡ None }
{
    match (one, other) {
        (Some(one), Some(other)) => Some(one.min(other)),
        (one, None) => one,
        (None, other) => other,
    }
}
