//! Connections to peers, and what happens at them.

ghost use Rattle.std.specs.Prelude.{◌≡◌, ◌<◌, ◌≤◌, ◌+◌, ◌-◌, ◌^◌, ◌||◌, ℕ, Bool, true, false, List, ◌∷◌, [], Option, length, IfOk, IfSome, OnErr};
ghost use Rattle.std.specs.Result.{is_ok};
ghost use Rattle.link_trait.specs.Outside.{Grew, Rose};
ghost use Rattle.link_trait.specs.States.{WiresState};
ghost use Rattle.link_trait.specs.Wires.{Line, Lines, Told, opened_by_dial, opened_by_turn, AllStay, IsNew, OnlyAdds, KeepsOctets, Takes, GivesWrittenOctets, StaysAtRead, StaysAtWrite, count_waiting_at_connection};
ghost use Rattle.link_trait.specs.Wires.{Call, Listens, Dials, Turns, Reads, Writes, Closes, reading_of, dialled};

use crate::sink::Failed;

/// A connection, by its number. Numbers begin at 1, rise by one with each connection, and are never used again.
#[derive(Clone, Copy, Debug, PartialEq, Eq)]
pub struct Conn(pub u64);

/// What a turn brought.
#[derive(Clone, Copy, Debug, PartialEq, Eq)]
pub enum Happening {
    /// A peer's connection was accepted.
    Accepted(Conn),
    /// Octets may wait at this connection, or its peer may have closed.
    Readable(Conn),
    /// There may be room for writing to this connection.
    Writable(Conn),
    /// Nothing happened.
    Quiet,
    /// Nothing more will happen.
    Ended,
    /// The turn failed, and both counts of faults rose in it.
    Failed,
}

/// What a read gave.
#[derive(Clone, Copy, Debug, PartialEq, Eq)]
pub enum ReadAnswer {
    /// So many octets, at least one, which stand at the head of the slice.
    Some(usize),
    /// No octet waits, and the peer hasn't closed.
    NotNow,
    /// No octet waits, and the peer has closed.
    End,
    /// The read failed, and the count of faults rose in it.
    Failed,
}

/// What became of a write.
#[derive(Clone, Copy, Debug, PartialEq, Eq)]
pub enum WriteAnswer {
    /// So many octets, at least one, from the head of the piece were taken.
    Some(usize),
    /// There is no room.
    NotNow,
    /// The write failed, and the count of faults rose in it.
    Failed,
}

/// Wires, over which connections are made.
///
/// What they tell is an optional meaning: wires in memory tell it, real ones don't. They tell each call with its
/// answer, and of each connection the octets taken, given and waiting, the room and whether the peer has closed. Wires
/// that tell nothing never begin to tell, and they may cease to tell.
///
/// Two counts of faults, each at most 2^64 - 1, never fall. One rises in each call that answers Failed. The other rises in
/// each listen, dial and turn that answers Failed, and in no other call.
pub trait Wires {
    // The calls, the connections, whether they listen, and the counts of faults.
    ghost state: { Self → WiresState };

    /// Listens at this address, so that peers are accepted.
    fn listen(&mut self, address: &str) -> Result<(), Failed>
        ensures told { Grew (state self.old).calls (state self.new).calls (Listens address.now (is_ok result) ∷ []) }
        ensures stays { Told (state self.old).lines (state self.new).lines (λ before now. AllStay (state self.old).opened before now) }
        ensures opened { (state self.new).opened ≡ (state self.old).opened }
        ensures listening { (state self.new).listening ≡ ((state self.old).listening || is_ok result) }

        ensures count { (state self.old).faults ≤ (state self.new).faults }
        ensures cause { OnErr result (Rose (state self.old).faults (state self.new).faults) }
        ensures most { (state self.new).faults ≤ 2 ^ 64 - 1 }
        ensures turn_count { (state self.old).turn_faults ≤ (state self.new).turn_faults }
        ensures turn_cause { OnErr result (Rose (state self.old).turn_faults (state self.new).turn_faults) }
        ensures turn_most { (state self.new).turn_faults ≤ 2 ^ 64 - 1 };

    /// Begins a connection to the peer at this address.
    fn dial(&mut self, address: &str) -> Result<Conn, Failed>
        ensures told { Grew (state self.old).calls (state self.new).calls (Dials address.now (dialled result) ∷ []) }
        ensures stays { Told (state self.old).lines (state self.new).lines (λ before now. AllStay (state self.old).opened before now) }
        ensures new { Told (state self.old).lines (state self.new).lines (λ before now. IfOk result (λ conn. IsNew (now conn.0))) }
        ensures number { IfOk result (λ conn. conn.0 ≡ (state self.old).opened + 1) }
        ensures opened { (state self.new).opened ≡ opened_by_dial result (state self.old).opened }
        ensures listening { (state self.new).listening ≡ (state self.old).listening }

        ensures count { (state self.old).faults ≤ (state self.new).faults }
        ensures cause { OnErr result (Rose (state self.old).faults (state self.new).faults) }
        ensures most { (state self.new).faults ≤ 2 ^ 64 - 1 }
        ensures turn_count { (state self.old).turn_faults ≤ (state self.new).turn_faults }
        ensures turn_cause { OnErr result (Rose (state self.old).turn_faults (state self.new).turn_faults) }
        ensures turn_most { (state self.new).turn_faults ≤ 2 ^ 64 - 1 };

    /// Waits for what happens next. Real wires answer Quiet at the latest at the moment `until`, in milliseconds since
    /// the start of 1970, where there is one; no clause says so.
    fn turn(&mut self, until: Option<u64>) -> Happening
        ensures told { Grew (state self.old).calls (state self.new).calls (Turns until result ∷ []) }
        ensures only_adds { Told (state self.old).lines (state self.new).lines (λ before now. (conn : ℕ) → conn ≤ (state self.old).opened → OnlyAdds (before conn) (now conn)) }
        ensures stays { Told (state self.old).lines (state self.new).lines (λ before now. (conn : ℕ) → conn ≤ (state self.old).opened → KeepsOctets (before conn) (now conn)) }
        ensures new { Told (state self.old).lines (state self.new).lines (λ before now. (conn : Conn) → result ≡ Happening.Accepted conn → IsNew (now conn.0)) }
        ensures number { (conn : Conn) → result ≡ Happening.Accepted conn → conn.0 ≡ (state self.old).opened + 1 }
        ensures accepted { (conn : Conn) → result ≡ Happening.Accepted conn → (state self.old).listening ≡ true }
        ensures opened { (state self.new).opened ≡ opened_by_turn result (state self.old).opened }
        ensures listening { (state self.new).listening ≡ (state self.old).listening }

        ensures count { (state self.old).faults ≤ (state self.new).faults }
        ensures cause { result ≡ Happening.Failed → Rose (state self.old).faults (state self.new).faults }
        ensures most { (state self.new).faults ≤ 2 ^ 64 - 1 }
        ensures turn_count { (state self.old).turn_faults ≤ (state self.new).turn_faults }
        ensures turn_cause { result ≡ Happening.Failed → Rose (state self.old).turn_faults (state self.new).turn_faults }
        ensures turn_most { (state self.new).turn_faults ≤ 2 ^ 64 - 1 };

    /// Reads octets that wait at this connection into the slice, which isn't empty.
    fn read(&mut self, conn: Conn, into: &mut [u8]) -> ReadAnswer
        requires { 0 < length into.old }
        ensures told { Grew (state self.old).calls (state self.new).calls (Reads conn.0 (length into.old) (count_waiting_at_connection (state self.old).lines conn.0) (reading_of result into.new) ∷ []) }
        ensures length { length into.new ≡ length into.old }
        ensures fits { (n : ℕ) → result ≡ ReadAnswer.Some n → (1 ≤ n) × (n ≤ length into.old) }
        ensures taken { Told (state self.old).lines (state self.new).lines (λ before now. Takes result (before conn.0) (now conn.0) into.new) }
        ensures stays { Told (state self.old).lines (state self.new).lines (λ before now. StaysAtRead result (state self.old).opened conn.0 before now) }
        ensures not_now { result ≡ ReadAnswer.NotNow → IfSome (state self.old).lines (λ before. ((before conn.0).waits ≡ []) × ((before conn.0).shut ≡ false)) }
        ensures end { result ≡ ReadAnswer.End → IfSome (state self.old).lines (λ before. ((before conn.0).waits ≡ []) × ((before conn.0).shut ≡ true)) }
        ensures opened { (state self.new).opened ≡ (state self.old).opened }
        ensures listening { (state self.new).listening ≡ (state self.old).listening }

        ensures count { (state self.old).faults ≤ (state self.new).faults }
        ensures cause { result ≡ ReadAnswer.Failed → Rose (state self.old).faults (state self.new).faults }
        ensures most { (state self.new).faults ≤ 2 ^ 64 - 1 }
        ensures turn_count { (state self.new).turn_faults ≡ (state self.old).turn_faults };

    /// Writes to this connection from the head of the piece, which isn't empty.
    fn write(&mut self, conn: Conn, piece: &[u8]) -> WriteAnswer
        requires { 0 < length piece.now }
        ensures told { Grew (state self.old).calls (state self.new).calls (Writes conn.0 piece.now result ∷ []) }
        ensures fits { (n : ℕ) → result ≡ WriteAnswer.Some n → (1 ≤ n) × (n ≤ length piece.now) }
        ensures given { Told (state self.old).lines (state self.new).lines (λ before now. GivesWrittenOctets result (before conn.0) (now conn.0) piece.now) }
        ensures stays { Told (state self.old).lines (state self.new).lines (λ before now. StaysAtWrite result (state self.old).opened conn.0 before now) }
        ensures not_now { result ≡ WriteAnswer.NotNow → IfSome (state self.old).lines (λ before. (before conn.0).room ≡ 0) }
        ensures opened { (state self.new).opened ≡ (state self.old).opened }
        ensures listening { (state self.new).listening ≡ (state self.old).listening }

        ensures count { (state self.old).faults ≤ (state self.new).faults }
        ensures cause { result ≡ WriteAnswer.Failed → Rose (state self.old).faults (state self.new).faults }
        ensures most { (state self.new).faults ≤ 2 ^ 64 - 1 }
        ensures turn_count { (state self.new).turn_faults ≡ (state self.old).turn_faults };

    /// Closes this connection. Nothing more happens at it.
    fn close(&mut self, conn: Conn)
        ensures told { Grew (state self.old).calls (state self.new).calls (Closes conn.0 ∷ []) }
        ensures stays { Told (state self.old).lines (state self.new).lines (λ before now. AllStay (state self.old).opened before now) }
        ensures opened { (state self.new).opened ≡ (state self.old).opened }
        ensures listening { (state self.new).listening ≡ (state self.old).listening }

        ensures count { (state self.old).faults ≤ (state self.new).faults }
        ensures most { (state self.new).faults ≤ 2 ^ 64 - 1 }
        ensures turn_count { (state self.new).turn_faults ≡ (state self.old).turn_faults };
}
