//! What a program does to its outside.

ghost use Rattle.std.specs.Prelude.{◌≡◌, ◌<◌, ◌≤◌, ◌+◌, ◌^◌, ℕ, true, List, ◌∷◌, [], length, IfOk};
ghost use Rattle.std.specs.Result.{is_ok};
ghost use Rattle.link_trait.specs.declared.wires.Conn.{Conn as AnyConn};
ghost use Rattle.link_trait.specs.declared.wires.Happening.TheVariants as happening;
ghost use Rattle.link_trait.specs.declared.wires.ReadAnswer.TheVariants as read_answer;
ghost use Rattle.link_trait.specs.declared.wires.WriteAnswer.TheVariants as write_answer;
ghost use Rattle.link_trait.specs.Outside.{Grew};
ghost use Rattle.link_trait.specs.Wires.{Reads, count_waiting_at_connection, reading_of, dialled};
ghost use Rattle.outside.specs.Acts.{Fetched, Wrote, Called, Asked, Drew, Listened, Dialled, Turned, Read, Sent, Closed};
ghost use Rattle.outside.specs.Seen.{fetched_by};
ghost use Rattle.outside.specs.Doings.{Told, Did};

use link_trait::{Conn, Failed, FetchFault, Happening, ReadAnswer, WriteAnswer};
use std::alloc::Global;

/// The outside: a cabinet of files, a sink, wires, a clock and random words.
///
/// Each call is one act. The acts so far are always told, over real objects too; what the parts tell by themselves, and how they count their faults, is as
/// link_trait says.
pub trait Outside {
    // The acts so far, and what the parts tell.
    ghost told: { Self → Told };

    /// The octets of the file of that name.
    fn fetch(&mut self, alloc: Global, name: &str) -> Result<Vec<u8>, FetchFault>
        ensures does { Did (told self.old) (told self.new) (Fetched name.now (fetched_by (λ file. file.items) result) ∷ []) };

    /// Writes the piece, which isn't empty, behind what was written before. Where it fails, a beginning of it may have been written.
    fn write(&mut self, piece: &[u8]) -> Result<(), Failed>
        requires { 0 < length piece.now }
        ensures does { Did (told self.old) (told self.new) (Wrote piece.now (is_ok result) ∷ []) };

    /// Listens at this address, so that peers are accepted.
    fn listen(&mut self, address: &str) -> Result<(), Failed>
        ensures does { Did (told self.old) (told self.new) (Called (Listened address.now (is_ok result)) ∷ []) };

    /// Begins a connection to the peer at this address.
    fn dial(&mut self, address: &str) -> Result<Conn, Failed>
        ensures does { Did (told self.old) (told self.new) (Called (Dialled address.now (dialled result)) ∷ []) }
        ensures number { IfOk result (λ conn. conn.0 ≡ (told self.old).wires.opened + 1) };

    /// Waits for what happens next, until the moment `until` at the latest, in milliseconds since the start of 1970; no clause says when.
    fn turn(&mut self, until: Option<u64>) -> Happening
        ensures does { Did (told self.old) (told self.new) (Called (Turned until result) ∷ []) }
        ensures number { (conn : AnyConn) → result ≡ happening.Accepted conn → conn.0 ≡ (told self.old).wires.opened + 1 }
        ensures accepted { (conn : AnyConn) → result ≡ happening.Accepted conn → (told self.old).wires.listening ≡ true };

    /// Reads octets that wait at this connection into the slice, which isn't empty. Wires that tell their calls tell of a read also how many octets
    /// waited, which no act says; one that gives nothing found none.
    fn read(&mut self, conn: Conn, into: &mut [u8]) -> ReadAnswer
        requires { 0 < length into.old }
        ensures does { Did (told self.old) (told self.new) (Called (Read conn.0 (length into.old) (reading_of result into.new)) ∷ []) }
        ensures length { length into.new ≡ length into.old }
        ensures fits { (n : ℕ) → result ≡ read_answer.Some n → (1 ≤ n) × (n ≤ length into.old) }
        ensures reads { Grew (told self.old).wires.calls (told self.new).wires.calls
            (Reads conn.0 (length into.old) (count_waiting_at_connection (told self.old).wires.lines conn.0) (reading_of result into.new) ∷ []) }
        ensures not_now { result ≡ read_answer.NotNow → count_waiting_at_connection (told self.old).wires.lines conn.0 ≡ 0 }
        ensures end { result ≡ read_answer.End → count_waiting_at_connection (told self.old).wires.lines conn.0 ≡ 0 };

    /// Writes to this connection from the head of the piece, which isn't empty.
    fn send(&mut self, conn: Conn, piece: &[u8]) -> WriteAnswer
        requires { 0 < length piece.now }
        ensures does { Did (told self.old) (told self.new) (Called (Sent conn.0 piece.now result) ∷ []) }
        ensures fits { (n : ℕ) → result ≡ write_answer.Some n → (1 ≤ n) × (n ≤ length piece.now) };

    /// Closes this connection. Nothing more happens at it.
    fn close(&mut self, conn: Conn)
        ensures does { Did (told self.old) (told self.new) (Called (Closed conn.0) ∷ []) };

    /// The moment that it is now, in milliseconds, at most 10^15. It may be below an earlier one.
    fn moment(&mut self) -> u64
        ensures does { Did (told self.old) (told self.new) (Asked result ∷ []) }
        ensures most { result ≤ 10 ^ 15 };

    /// The next random word.
    fn word(&mut self) -> u64
        ensures does { Did (told self.old) (told self.new) (Drew result ∷ []) };
}
