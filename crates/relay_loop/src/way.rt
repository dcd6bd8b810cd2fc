//! One way of a relayed connection: what comes from one side, and is given to the other.

ghost use Rattle.std.specs.Prelude.{◌≡◌, ◌<◌, ◌≤◌, ◌+◌, true, false, [], length, take, IfOk, OnOk};
ghost use Rattle.relay_script.specs.declared.script.Script as model;
ghost use Rattle.relay_script.specs.ScriptRanges.{IsScriptInRange};
ghost use Rattle.relay_loop.specs.Ways.{HoldsWay, first_due_of, IsUndue};
ghost use Rattle.relay_loop.specs.WaySteps.{Keeps, WayMoves, StaysOpen, EndsWay, PrintsGiven};

use crate::lines::put_given;
use crate::piece::Piece;
use crate::stamp::Stamp;
use bytes::BytesMut;
use er_base::{NoMemory, Room, Side};
use relay_carrier::Carrier;
use relay_model::laws::closed_stays;
use relay_script::Script;
use std::alloc::Global;
use std::collections::VecDeque;

/// Where more octets wait for a side, the other isn't read.
const MOST_WAITING: usize = 262_144;

/// What came from a side and isn't written to the other yet. What is given is printed when it is due, and written behind that.
#[derive(Drop)]
pub(crate) struct Way {
    // The side from which it comes.
    pub(crate) side: Side,
    pub(crate) carrier: Carrier,
    // What is given later, in its order.
    pub(crate) waits: VecDeque<Piece>,
    // How many octets that is.
    pub(crate) later: usize,
    // What was printed as given and isn't written yet.
    pub(crate) printed: BytesMut,
    // The side ended or failed: what was held of it waits too.
    pub(crate) ended: bool,
    // The octets behind which a line closes the connection were printed.
    pub(crate) closing: bool,
    // The other side failed: nothing is given to it any more.
    pub(crate) lost: bool,
    // Something may have come that wasn't read, since too much waits.
    pub(crate) unread: bool,
    // The greatest moment at which something came or was given.
    pub(crate) latest: u64,
}

impl Way {
    /// Nothing came.
    pub(crate) fn new(alloc: Global, side: Side) -> Result<Way, NoMemory>
        ensures holds { IfOk result (λ way. (script : model.Script) → HoldsWay script side [] [] [] way) }
        ensures open { IfOk result (λ way. way.ended ≡ false) }
        ensures alive { IfOk result (λ way. way.lost ≡ false) }
        ensures waits { IfOk result (λ way. way.waits.items ≡ []) }
        ensures printed { IfOk result (λ way. way.printed.items ≡ []) }
    {
        Ok(Way {
            side,
            carrier: Carrier::new(alloc, side)?,
            waits: VecDeque::new(alloc),
            later: 0,
            printed: BytesMut::new(alloc),
            ended: false,
            closing: false,
            lost: false,
            unread: false,
            latest: 0,
        })
    }

    /// Whether more waits than may before its side is read again.
    pub(crate) fn is_full(&self) -> bool {
        self.later.saturating_add(self.printed.len()) > MOST_WAITING
    }

    /// Whether nothing waits.
    pub(crate) fn is_idle(&self) -> bool
        ensures waits { result ≡ true → self.now.waits.items ≡ [] }
        ensures printed { result ≡ true → self.now.printed.items ≡ [] }
    {
        if self.printed.is_empty() {
            return self.waits.is_empty();
        }
        false
    }

    /// The moment at which the first is due that is given later.
    pub(crate) fn first_due(&self) -> Option<u64>
        ensures { result ≡ first_due_of self.now.waits.items }
    {
        match self.waits.front() {
            Some(piece) => Some(piece.due),
            None => None,
        }
    }

    // It is visited at a moment. None counts that is below an earlier one.
    fn see(&mut self, moment: u64)
        ensures at { moment ≤ self.new.latest }
        ensures later { self.old.latest ≤ self.new.latest }
        ensures new { self.new ≡ record self.old { latest = self.new.latest } }
    {
        if self.latest < moment {
            self.latest = moment;
        }
    }

    // What is given for what came waits until it is due.
    fn keep(&mut self, given: Vec<u8>, due: u64) -> Result<(), NoMemory>
        ensures { OnOk result (Keeps self.old self.new given.items due) }
    {
        if given.as_slice().is_empty() {
            return Ok(());
        }
        self.later = self.later.saturating_add(given.len());
        self.waits.push_back(Piece { octets: given, due })?;
        Ok(())
    }

    /// Takes octets that came at a moment, up to and with the first that end a unit: how many. `came` is what is held no longer.
    pub(crate) fn take(
        &mut self,
        alloc: Global,
        script: &Script,
        moment: u64,
        octets: &[u8],
        came: &mut Room,
    ) -> Result<usize, NoMemory>
        requires range { IsScriptInRange script.now }
        requires unclosed { self.old.carrier.closed ≡ false }
        requires unended { self.old.ended ≡ false }
        requires alive { self.old.lost ≡ false }
        requires room { came.old.capacity ≡ 4096 }
        ensures within { IfOk result (λ used. used ≤ length octets.now) }
        ensures moves { IfOk result (λ used. 0 < length octets.now → 0 < used) }
        ensures unended { OnOk result (self.new.ended ≡ false) }
        ensures alive { OnOk result (self.new.lost ≡ false) }
        ensures stays { OnOk result (StaysOpen self.old self.new) }
        ensures takes { IfOk result (λ used. WayMoves script.now (take used octets.now) [] self.old self.new) }
        ensures room { came.new.capacity ≡ 4096 }
    {
        closed_stays();
        self.see(moment);
        let mut given = Vec::new(alloc);
        let taken = self
            .carrier
            .take(alloc, script, moment, octets, came, &mut given)?;
        self.keep(given, taken.due)?;
        Ok(taken.used)
    }

    /// The side ended at a moment: `came` is what was held, which is given as it is, unless a line has closed the connection.
    pub(crate) fn end(
        &mut self,
        alloc: Global,
        moment: u64,
        came: &mut Room,
    ) -> Result<(), NoMemory>
        requires unended { self.old.ended ≡ false }
        requires room { came.old.capacity ≡ 4096 }
        ensures ended { OnOk result (EndsWay self.old self.new) }
        ensures ends { OnOk result ((script : model.Script) → WayMoves script [] [] self.old self.new) }
        ensures room { came.new.capacity ≡ 4096 }
    {
        came.clear();
        if self.carrier.is_closed() {
            self.ended = true;
            return Ok(());
        }
        self.see(moment);
        let mut given = Vec::new(alloc);
        let due = self.carrier.end(moment, came, &mut given)?;
        self.keep_held(given, due)?;
        self.ended = true;
        Ok(())
    }

    // What was held when the side ended waits, where there is a side to give it to.
    fn keep_held(&mut self, given: Vec<u8>, due: u64) -> Result<(), NoMemory>
        ensures keeps { OnOk result (self.old.lost ≡ false → Keeps self.old self.new given.items due) }
        ensures side { OnOk result (self.new.side ≡ self.old.side) }
        ensures lost { OnOk result (self.new.lost ≡ self.old.lost) }
        ensures closing { OnOk result (self.new.closing ≡ self.old.closing) }
    {
        if self.lost {
            return Ok(());
        }
        self.keep(given, due)
    }

    // Whether the first that waits is due.
    fn is_due(&self) -> bool
        ensures some { result ≡ true → 0 < length self.now.waits.items }
        ensures undue { result ≡ false → IsUndue self.now.latest self.now.waits.items }
    {
        match self.first_due() {
            Some(due) => due <= self.latest,
            None => false,
        }
    }

    // The first that waits is printed. Where a line closes the connection behind it, it is the last.
    fn print_first(&mut self, at: Stamp, lines: &mut Vec<u8>) -> Result<(), NoMemory>
        requires alive { self.old.lost ≡ false }
        ensures alive { OnOk result (self.new.lost ≡ false) }
        ensures prints { OnOk result (PrintsGiven at self.old self.new lines.old.items lines.new.items) }
        ensures less { OnOk result (0 < length self.old.waits.items → length self.new.waits.items < length self.old.waits.items) }
    {
        closed_stays();
        let Some(piece) = self.waits.pop_front() else {
            return Ok(());
        };
        put_given(at, self.side, piece.octets.as_slice(), lines)?;
        self.printed.extend_from_slice(piece.octets.as_slice())?;
        self.later = self.later.saturating_sub(piece.octets.len());
        self.close_behind();
        Ok(())
    }

    // Where the octets were printed behind which a line closes the connection, nothing comes behind them.
    fn close_behind(&mut self)
        ensures new { self.new ≡ record self.old { closing = self.new.closing } }
        ensures stays { self.old.closing ≡ true → self.new.closing ≡ true }
        ensures closes { self.old.closing ≡ false → self.new.closing ≡ true → (self.old.carrier.closed ≡ true) × (self.old.waits.items ≡ []) }
    {
        if !self.waits.is_empty() {
            return;
        }
        if self.carrier.is_closed() {
            self.closing = true;
        }
    }

    /// What is due is printed, and is to be written behind its lines.
    pub(crate) fn print_due(&mut self, at: Stamp, lines: &mut Vec<u8>) -> Result<(), NoMemory>
        ensures prints { OnOk result (PrintsGiven at self.old self.new lines.old.items lines.new.items) }
        ensures undue { OnOk result (self.new.lost ≡ false → IsUndue self.new.latest self.new.waits.items) }
    {
        if self.lost {
            return Ok(());
        }
        self.see(at.moment);
        while self.is_due() {
            self.print_first(at, lines)?;
        }
        Ok(())
    }

    /// So many of the octets that were printed are written.
    pub(crate) fn wrote(&mut self, count: usize)
        requires count { count ≤ length self.old.printed.items }
        requires alive { self.old.lost ≡ false }
        ensures writes { (script : model.Script) → WayMoves script [] (take count self.old.printed.items) self.old self.new }
        ensures alive { self.new.lost ≡ false }
        ensures less { length self.new.printed.items + count ≡ length self.old.printed.items }
        ensures is { self.new ≡ record self.old { printed = self.new.printed } }
    {
        self.printed.advance(count);
    }

    /// The other side failed: what waits for it goes.
    pub(crate) fn lose(&mut self)
        ensures loses { (script : model.Script) → WayMoves script [] [] self.old self.new }
        ensures lost { self.new.lost ≡ true }
        ensures ended { self.new.ended ≡ self.old.ended }
        ensures closing { self.new.closing ≡ self.old.closing }
    {
        self.waits.clear();
        self.later = 0;
        self.printed.clear();
        self.lost = true;
    }
}
