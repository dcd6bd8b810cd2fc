//! The loop: turn by turn what happens at its wires, and what is due.

ghost use Rattle.std.specs.Prelude.{◌≡◌, ◌<◌, ◌≤◌, ◌+◌, ◌-◌, ◌^◌, ◌++◌, ◌∷◌, [], true, false, codes, List, ℕ, None, OnOk, IfErr};
ghost use Rattle.outside.specs.Acts.{Asked, Wrote};
ghost use Rattle.outside.specs.Doings.{Told, Did};
ghost use Rattle.relay_script.specs.declared.script.Script as model;
ghost use Rattle.relay_script.specs.ScriptRanges.{IsScriptInRange};
ghost use Rattle.relay_loop.specs.declared.fault.RelayFault.TheVariants as fault;
ghost use Rattle.relay_loop.specs.Relays.{Relays};
ghost use Rattle.relay_loop.specs.Endings.{EndsByCause};
ghost use Rattle.relay_loop.specs.Rings.{AllIdle, Stage, Fresh, Opened, Unanswered, IsToClose};
ghost use Rattle.relay_loop.specs.Rings.{EndsGoing, EndsAccept, Reacts, accepted_behind, AnswersTurn, EndsTurn, EndsRun, EndsBeginning, RanSoFar};

use crate::fault::RelayFault;
use crate::lines::{put_closed, put_end, put_open};
use crate::link::{Link, Question, earlier};
use crate::printing::write_lines;
use crate::stamp::Stamp;
use crate::workspace::Workspace;
use er_base::{NoMemory, Side};
use link_trait::{Conn, Failed, Happening};
use outside::Outside;
use relay_model::laws::closed_stays;
use relay_script::Script;
use std::alloc::Global;
use std::collections::VecDeque;

/// The most connections that are open at once.
pub const MOST_CONNECTIONS: usize = 256;

// The first line.
const HEADER: &[u8] = b"relay 1\n";

// A relay with its open connections.
#[derive(Drop)]
struct LiveRelay {
    // Each in turn: the first is asked next, and stands last behind the others then.
    links: VecDeque<Link>,
    // How many were accepted.
    accepted: u64,
    // The greatest moment that the clock gave.
    moment: u64,
    workspace: Workspace,
}

impl LiveRelay {
    // No connection yet.
    fn new(alloc: Global) -> LiveRelay
        ensures links { result.links.items ≡ [] }
        ensures accepted { result.accepted ≡ 0 }
        ensures lines { result.workspace.lines.items ≡ [] }
    {
        LiveRelay {
            links: VecDeque::new(alloc),
            accepted: 0,
            moment: 0,
            workspace: Workspace::new(alloc),
        }
    }

    // The first moment at which something is due.
    fn until(&self) -> Option<u64>
        ensures { result ≡ None → AllIdle self.now.links.items }
    {
        let mut first = None;
        for link in self.links.iter() {
            first = earlier(first, link.until());
        }
        first
    }

    // A connection stands last behind the others.
    fn keep(&mut self, link: Link) -> Result<(), NoMemory>
        ensures links { OnOk result (self.new.links.items ≡ self.old.links.items ++ link ∷ []) }
        ensures workspace { self.new.workspace ≡ self.old.workspace }
        ensures accepted { self.new.accepted ≡ self.old.accepted }
    {
        self.links.push_back(link)?;
        Ok(())
    }

    // The first connection is asked, and stands last behind the others then, unless it was closed.
    fn ask_first<O: Outside>(
        &mut self,
        script: &Script,
        asked: Question,
        outside: &mut O,
    ) -> Result<(), RelayFault>
        requires range { IsScriptInRange script.now }
        ensures goes { (dial : List ℕ) → EndsGoing result script.now dial self.old.links.items self.new.links.items
            self.old.workspace.lines.items self.new.workspace.lines.items (O.told outside.old) (O.told outside.new) }
        ensures accepted { self.new.accepted ≡ self.old.accepted }
    {
        let Some(mut link) = self.links.pop_front() else {
            return Ok(());
        };
        let stays = link.ask(script, self.moment, asked, &mut self.workspace, outside)?;
        if !stays {
            return Ok(());
        }
        self.keep(link)?;
        Ok(())
    }

    // Each connection is asked.
    fn ask_each<O: Outside>(
        &mut self,
        script: &Script,
        asked: Question,
        outside: &mut O,
    ) -> Result<(), RelayFault>
        requires range { IsScriptInRange script.now }
        ensures goes { (dial : List ℕ) → EndsGoing result script.now dial self.old.links.items self.new.links.items
            self.old.workspace.lines.items self.new.workspace.lines.items (O.told outside.old) (O.told outside.new) }
        ensures accepted { self.new.accepted ≡ self.old.accepted }
    {
        for _ in 0..self.links.len() {
            self.ask_first(script, asked, outside)?;
        }
        Ok(())
    }

    // Whether something is due.
    fn is_due(&self) -> bool {
        match self.until() {
            Some(until) => until <= self.moment,
            None => false,
        }
    }

    // What is due is given.
    #[tactic(auto, using(crate::proofs::RelayRings::goes_none))]
    fn give_due<O: Outside>(&mut self, script: &Script, outside: &mut O) -> Result<(), RelayFault>
        requires range { IsScriptInRange script.now }
        ensures goes { (dial : List ℕ) → EndsGoing result script.now dial self.old.links.items self.new.links.items
            self.old.workspace.lines.items self.new.workspace.lines.items (O.told outside.old) (O.told outside.new) }
        ensures accepted { self.new.accepted ≡ self.old.accepted }
    {
        if !self.is_due() {
            return Ok(());
        }
        self.ask_each(script, Question::Due, outside)
    }

    // A connection is closed that was accepted, and gets no other side.
    fn turn_away<O: Outside>(
        &mut self,
        at: Stamp,
        conn: Conn,
        outside: &mut O,
    ) -> Result<(), RelayFault>
        ensures accepts { (script : model.Script) (dial : List ℕ) (stage : Stage) → IsToClose stage self.old.links.items
            → EndsAccept result script dial stage at.number conn.0 self.old.links.items self.new.links.items self.old.workspace.lines.items
            self.new.workspace.lines.items (O.told outside.old) (O.told outside.new) }
        ensures accepted { self.new.accepted ≡ self.old.accepted }
    {
        put_closed(at, &mut self.workspace.lines)?;
        write_lines(&mut self.workspace.lines, outside)?;
        outside.close(conn);
        Ok(())
    }

    // None could be dialled for a connection that was accepted: that side has ended.
    fn give_up<O: Outside>(
        &mut self,
        at: Stamp,
        conn: Conn,
        outside: &mut O,
    ) -> Result<(), RelayFault>
        ensures accepts { (script : model.Script) (dial : List ℕ) → EndsAccept result script dial Unanswered at.number conn.0 self.old.links.items
            self.new.links.items self.old.workspace.lines.items self.new.workspace.lines.items (O.told outside.old) (O.told outside.new) }
        ensures accepted { self.new.accepted ≡ self.old.accepted }
    {
        put_end(at, Side::R, &mut self.workspace.lines)?;
        self.turn_away(at, conn, outside)
    }

    // Another connection is dialled for one that was accepted.
    fn dial<O: Outside>(
        &mut self,
        alloc: Global,
        at: Stamp,
        conn: Conn,
        dial: &str,
        outside: &mut O,
    ) -> Result<(), RelayFault>
        ensures accepts { (script : model.Script) → EndsAccept result script dial.now Opened at.number conn.0 self.old.links.items self.new.links.items
            self.old.workspace.lines.items self.new.workspace.lines.items (O.told outside.old) (O.told outside.new) }
        ensures accepted { self.new.accepted ≡ self.old.accepted }
    {
        write_lines(&mut self.workspace.lines, outside)?;
        match outside.dial(dial) {
            Ok(dialled) => {
                let link = Link::new(alloc, at.number, conn, dialled)?;
                self.keep(link)?;
                Ok(())
            }
            Err(Failed) => self.give_up(at, conn, outside),
        }
    }

    // A connection was accepted. Above the most that are open it is closed.
    fn accept<O: Outside>(
        &mut self,
        alloc: Global,
        conn: Conn,
        dial: &str,
        outside: &mut O,
    ) -> Result<(), RelayFault>
        requires room { self.old.accepted < 2 ^ 64 - 1 }
        ensures accepts { (script : model.Script) → EndsAccept result script dial.now Fresh (self.old.accepted + 1) conn.0 self.old.links.items
            self.new.links.items self.old.workspace.lines.items self.new.workspace.lines.items (O.told outside.old) (O.told outside.new) }
        ensures accepted { self.new.accepted ≡ self.old.accepted + 1 }
    {
        self.accepted += 1;
        let at = Stamp {
            moment: self.moment,
            number: self.accepted,
        };
        put_open(at, &mut self.workspace.lines)?;
        if self.links.len() >= MOST_CONNECTIONS {
            return self.turn_away(at, conn, outside);
        }
        self.dial(alloc, at, conn, dial, outside)
    }

    // What happened is handled whole.
    #[tactic(auto, using(crate::proofs::RelayRings::goes_none))]
    fn react<O: Outside>(
        &mut self,
        alloc: Global,
        script: &Script,
        dial: &str,
        happening: Happening,
        outside: &mut O,
    ) -> Result<(), RelayFault>
        requires range { IsScriptInRange script.now }
        requires room { self.old.accepted < 2 ^ 64 - 1 }
        ensures reacts { Reacts result script.now dial.now self.old.accepted happening self.old.links.items self.new.links.items
            self.old.workspace.lines.items self.new.workspace.lines.items (O.told outside.old) (O.told outside.new) }
        ensures accepted { self.new.accepted ≡ accepted_behind happening self.old.accepted }
    {
        match happening {
            Happening::Accepted(conn) => self.accept(alloc, conn, dial, outside),
            Happening::Readable(conn) => self.ask_each(script, Question::Readable(conn), outside),
            Happening::Writable(conn) => self.ask_each(script, Question::Writable(conn), outside),
            Happening::Quiet => Ok(()),
            Happening::Ended => Ok(()),
            Happening::Failed => Ok(()),
        }
    }

    // The clock is asked. No moment is below an earlier one.
    fn see_moment<O: Outside>(&mut self, outside: &mut O) -> u64
        ensures asks { Did (O.told outside.old) (O.told outside.new) (Asked result ∷ []) }
        ensures links { self.new.links ≡ self.old.links }
        ensures workspace { self.new.workspace ≡ self.old.workspace }
        ensures accepted { self.new.accepted ≡ self.old.accepted }
    {
        let moment = outside.moment();
        self.moment = self.moment.max(moment);
        moment
    }

    // A turn, and what follows it: what is due comes before what comes. Whether the loop goes on.
    fn turn<O: Outside>(
        &mut self,
        alloc: Global,
        script: &Script,
        dial: &str,
        outside: &mut O,
    ) -> Result<bool, RelayFault>
        requires range { IsScriptInRange script.now }
        requires room { self.old.accepted < 2 ^ 64 - 1 }
        ensures turns { EndsTurn result script.now dial.now self.old.accepted self.new.accepted self.old.links.items self.new.links.items
            self.old.workspace.lines.items self.new.workspace.lines.items (O.told outside.old) (O.told outside.new) }
        ensures accepted { OnOk result (self.new.accepted ≤ self.old.accepted + 1) }
    {
        closed_stays();
        let happening = outside.turn(self.until());
        self.see_moment(outside);
        self.give_due(script, outside)?;
        self.react(alloc, script, dial, happening, outside)?;
        goes_on(happening)
    }

    // All turns, unless the wires end before.
    fn run<O: Outside>(
        &mut self,
        alloc: Global,
        script: &Script,
        dial: &str,
        turns: u64,
        outside: &mut O,
    ) -> Result<(), RelayFault>
        requires range { IsScriptInRange script.now }
        requires none { self.old.accepted ≡ 0 }
        ensures { (first : Told) (listen : List ℕ)
            → RanSoFar listen 0 script.now dial.now first (O.told outside.old) self.old.accepted self.old.workspace.lines.items self.old.links.items
            → EndsRun result listen turns script.now dial.now first (O.told outside.new) }
    {
        for _ in 0..turns {
            if !self.turn(alloc, script, dial, outside)? {
                return Ok(());
            }
        }
        Ok(())
    }
}

// Whether the loop goes on behind a turn.
fn goes_on(happening: Happening) -> Result<bool, RelayFault>
    ensures { AnswersTurn result happening }
{
    match happening {
        Happening::Ended => Ok(false),
        Happening::Failed => Err(RelayFault::Wires),
        Happening::Accepted(_) => Ok(true),
        Happening::Readable(_) => Ok(true),
        Happening::Writable(_) => Ok(true),
        Happening::Quiet => Ok(true),
    }
}

// Listens, and then writes the first line.
fn begin<O: Outside>(listen: &str, outside: &mut O) -> Result<(), RelayFault>
    ensures { (script : model.Script) (dial : List ℕ) → EndsBeginning result listen.now script dial (O.told outside.old) (O.told outside.new) }
{
    match outside.listen(listen) {
        Ok(()) => write_header(outside),
        Err(Failed) => Err(RelayFault::Wires),
    }
}

// Writes the first line.
fn write_header<O: Outside>(outside: &mut O) -> Result<(), RelayFault>
    ensures wrote { OnOk result (Did (O.told outside.old) (O.told outside.new) (Wrote (codes "relay 1\n") true ∷ [])) }
    ensures broke { IfErr result (λ broke. (broke ≡ fault.Sink) × Did (O.told outside.old) (O.told outside.new) (Wrote (codes "relay 1\n") false ∷ [])) }
{
    match outside.write(HEADER) {
        Ok(()) => Ok(()),
        Err(Failed) => Err(RelayFault::Sink),
    }
}

/// Listens at an address, and has another one dialled for each connection that is accepted; octets are passed both ways, but for what the script says.
///
/// So many turns of the wires are done at the most. Each line is written before what it tells is done.
pub fn relay<O: Outside>(
    alloc: Global,
    script: &Script,
    listen: &str,
    dial: &str,
    turns: u64,
    outside: &mut O,
) -> Result<(), RelayFault>
    requires range { IsScriptInRange script.now }
    // At each moment, however it ends, what was given to either side of each connection was told before, and is a beginning of what is carried of what was
    // read of the other; no call is at another socket or address; and by each wait all was given, but for what can't be then.
    ensures relays { Relays script.now dial.now (O.told outside.old) (O.told outside.new) }
    // What it answers has its cause: that all turns were done or the wires ended; that the listen or the last turn failed; that the last write failed. Only
    // want of memory isn't seen in what was done, but that it is in a turn, and no write failed before it.
    ensures ends { EndsByCause result listen.now turns (O.told outside.old) (O.told outside.new) }
{
    let mut live = LiveRelay::new(alloc);
    begin(listen, outside)?;
    live.run(alloc, script, dial, turns, outside)
}
