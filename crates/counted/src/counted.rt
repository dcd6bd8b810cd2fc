//! An outside that counts.

ghost use Rattle.std.specs.Prelude.{◌≡◌, ◌≤◌, ◌<◌, ◌+◌, ◌^◌, ℕ, true, List, [], ◌∷◌, ◌++◌, length, IfOk, if◌then◌else◌};
ghost use Rattle.std.specs.Result.{is_ok};
ghost use Rattle.link_trait.specs.declared.wires.Conn.{Conn as AnyConn};
ghost use Rattle.link_trait.specs.declared.wires.Happening.TheVariants as happening;
ghost use Rattle.link_trait.specs.declared.wires.ReadAnswer.TheVariants as read_answer;
ghost use Rattle.link_trait.specs.declared.wires.WriteAnswer.TheVariants as write_answer;
ghost use Rattle.link_trait.specs.Outside.{Grew};
ghost use Rattle.link_trait.specs.Wires.{Reads, count_waiting_at_connection, reading_of, dialled};
ghost use Rattle.outside.specs.Acts.{Fetched, Wrote, Called, Asked, Drew, Listened, Dialled, Turned, Read, Sent, Closed};
ghost use Rattle.outside.specs.Seen.{fetched_by};
ghost use Rattle.outside.specs.Doings.{Did};
ghost use Rattle.journal.specs.Tallies.{IsTallyOf};
ghost use Rattle.counted.specs.Counting.{shown_count, IsCountOf, AreAmong};

use crate::counts::JournalCounts;
use journal::{EventTally, Journal};
use link_trait::{Conn, Failed, FetchFault, Happening, ReadAnswer, WriteAnswer};
use outside::{History, Note, Outside};
use std::alloc::Global;

/// An outside to which a journal is written, over another one that is inside. It does what that does and tells what that tells, and counts what is
/// recorded through it with success.
#[derive(Drop)]
pub struct Counted<O: Journal + Drop> {
    /// What is inside.
    pub outside: O,
    /// What was counted.
    pub counts: JournalCounts,
    /// What was recorded.
    pub recorded: History,
    ghost counted: { ∥ IsCountOf recorded.acts counts ∥₁ },
    ghost among: { ∥ AreAmong recorded.acts (O.told outside).acts ∥₁ },
}

impl<O: Journal + Drop> Counted<O> {
    /// An outside through which nothing was recorded yet.
    pub fn new(outside: O) -> Counted<O>
        ensures outside { result.outside ≡ outside }
        ensures recorded { result.recorded.acts ≡ [] }
        ensures ignored { result.counts.ignored ≡ 0 }
    {
        Counted {
            outside,
            counts: JournalCounts::new(),
            recorded: History::new(),
        }
    }

    /// The counts of what was recorded with success: of these entries, whose lines were recorded in this order. It all stands among what was done inside.
    pub fn counts(&self) -> &JournalCounts
        ensures counts { result.now ≡ self.now.counts }
        ensures counted { ∥ IsCountOf self.now.recorded.acts result.now ∥₁ }
        ensures among { ∥ AreAmong self.now.recorded.acts (O.told self.now.outside).acts ∥₁ }
    {
        &self.counts
    }
}

impl<O: Journal + Drop> Outside for Counted<O> {
    ghost told = { λ c. O.told c.outside };

    fn fetch(&mut self, alloc: Global, name: &str) -> Result<Vec<u8>, FetchFault>
        ensures does { Did (O.told self.old.outside) (O.told self.new.outside) (Fetched name.now (fetched_by (λ file. file.items) result) ∷ []) }
        ensures counts { self.new.counts ≡ self.old.counts }
        ensures recorded { self.new.recorded ≡ self.old.recorded }
    {
        self.outside.fetch(alloc, name)
    }

    fn write(&mut self, piece: &[u8]) -> Result<(), Failed>
        requires { 0 < length piece.now }
        ensures does { Did (O.told self.old.outside) (O.told self.new.outside) (Wrote piece.now (is_ok result) ∷ []) }
        ensures counts { self.new.counts ≡ self.old.counts }
        ensures recorded { self.new.recorded ≡ self.old.recorded }
    {
        self.outside.write(piece)
    }

    fn listen(&mut self, address: &str) -> Result<(), Failed>
        ensures does { Did (O.told self.old.outside) (O.told self.new.outside) (Called (Listened address.now (is_ok result)) ∷ []) }
        ensures counts { self.new.counts ≡ self.old.counts }
        ensures recorded { self.new.recorded ≡ self.old.recorded }
    {
        self.outside.listen(address)
    }

    fn dial(&mut self, address: &str) -> Result<Conn, Failed>
        ensures does { Did (O.told self.old.outside) (O.told self.new.outside) (Called (Dialled address.now (dialled result)) ∷ []) }
        ensures number { IfOk result (λ conn. conn.0 ≡ (O.told self.old.outside).wires.opened + 1) }
        ensures counts { self.new.counts ≡ self.old.counts }
        ensures recorded { self.new.recorded ≡ self.old.recorded }
    {
        self.outside.dial(address)
    }

    fn turn(&mut self, until: Option<u64>) -> Happening
        ensures does { Did (O.told self.old.outside) (O.told self.new.outside) (Called (Turned until result) ∷ []) }
        ensures number { (conn : AnyConn) → result ≡ happening.Accepted conn → conn.0 ≡ (O.told self.old.outside).wires.opened + 1 }
        ensures accepted { (conn : AnyConn) → result ≡ happening.Accepted conn → (O.told self.old.outside).wires.listening ≡ true }
        ensures counts { self.new.counts ≡ self.old.counts }
        ensures recorded { self.new.recorded ≡ self.old.recorded }
    {
        self.outside.turn(until)
    }

    fn read(&mut self, conn: Conn, into: &mut [u8]) -> ReadAnswer
        requires { 0 < length into.old }
        ensures does { Did (O.told self.old.outside) (O.told self.new.outside) (Called (Read conn.0 (length into.old) (reading_of result into.new)) ∷ []) }
        ensures length { length into.new ≡ length into.old }
        ensures fits { (n : ℕ) → result ≡ read_answer.Some n → (1 ≤ n) × (n ≤ length into.old) }
        ensures reads { Grew (O.told self.old.outside).wires.calls (O.told self.new.outside).wires.calls
            (Reads conn.0 (length into.old) (count_waiting_at_connection (O.told self.old.outside).wires.lines conn.0) (reading_of result into.new) ∷ []) }
        ensures not_now { result ≡ read_answer.NotNow → count_waiting_at_connection (O.told self.old.outside).wires.lines conn.0 ≡ 0 }
        ensures end { result ≡ read_answer.End → count_waiting_at_connection (O.told self.old.outside).wires.lines conn.0 ≡ 0 }
        ensures counts { self.new.counts ≡ self.old.counts }
        ensures recorded { self.new.recorded ≡ self.old.recorded }
    {
        self.outside.read(conn, into)
    }

    fn send(&mut self, conn: Conn, piece: &[u8]) -> WriteAnswer
        requires { 0 < length piece.now }
        ensures does { Did (O.told self.old.outside) (O.told self.new.outside) (Called (Sent conn.0 piece.now result) ∷ []) }
        ensures fits { (n : ℕ) → result ≡ write_answer.Some n → (1 ≤ n) × (n ≤ length piece.now) }
        ensures counts { self.new.counts ≡ self.old.counts }
        ensures recorded { self.new.recorded ≡ self.old.recorded }
    {
        self.outside.send(conn, piece)
    }

    fn close(&mut self, conn: Conn)
        ensures does { Did (O.told self.old.outside) (O.told self.new.outside) (Called (Closed conn.0) ∷ []) }
        ensures counts { self.new.counts ≡ self.old.counts }
        ensures recorded { self.new.recorded ≡ self.old.recorded }
    {
        self.outside.close(conn);
    }

    fn moment(&mut self) -> u64
        ensures does { Did (O.told self.old.outside) (O.told self.new.outside) (Asked result ∷ []) }
        ensures most { result ≤ 10 ^ 15 }
        ensures counts { self.new.counts ≡ self.old.counts }
        ensures recorded { self.new.recorded ≡ self.old.recorded }
    {
        self.outside.moment()
    }

    fn word(&mut self) -> u64
        ensures does { Did (O.told self.old.outside) (O.told self.new.outside) (Drew result ∷ []) }
        ensures counts { self.new.counts ≡ self.old.counts }
        ensures recorded { self.new.recorded ≡ self.old.recorded }
    {
        self.outside.word()
    }
}

impl<O: Journal + Drop> Journal for Counted<O> {
    fn record(&mut self, lines: &[u8], tally: &EventTally) -> Result<(), Failed>
        requires lines { 0 < length lines.now }
        requires tally { IsTallyOf lines.now tally.now }
        ensures does { Did (O.told self.old.outside) (O.told self.new.outside) (Wrote lines.now (is_ok result) ∷ []) }
        ensures recorded { self.new.recorded.acts ≡ self.old.recorded.acts ++ Wrote lines.now (is_ok result) ∷ [] }
        ensures ignored { self.new.counts.ignored
            ≡ (if is_ok result then shown_count (self.old.counts.ignored + tally.now.ignored) else self.old.counts.ignored) }
    {
        let answer = self.outside.record(lines, tally);
        match answer {
            Ok(()) => {
                self.counts.add(tally);
                let taken = Ok(());
                self.recorded.note(&Note::Wrote(lines, &taken));
                taken
            }
            Err(failed) => {
                let refused = Err(failed);
                self.recorded.note(&Note::Wrote(lines, &refused));
                refused
            }
        }
    }
}
