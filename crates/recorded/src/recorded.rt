//! An outside whose recording goes first.

ghost use Rattle.std.specs.Prelude.{◌≡◌, ◌≤◌, ◌<◌, ◌+◌, ◌∷◌, [], true, false, length, vec_len, vec_capacity, IfOk, OnOk, OnErr};
ghost use Rattle.std.specs.Result.{is_ok};
ghost use Rattle.outside.specs.Acts.{Wrote};
ghost use Rattle.outside.specs.Doings.{Did};
ghost use Rattle.recorded.specs.Recordings.{octets_written_in};
ghost use Rattle.recorded.specs.Telling.{told_through};
ghost use Rattle.recorded.specs.Keeping.{IsKept};

use er_base::NoMemory;
use link_trait::{Conn, Failed, FetchFault, Happening, ReadAnswer, WriteAnswer};
use outside::{History, Note, Outside};
use std::alloc::Global;

/// The most octets that wait.
pub const MOST_WAITING: usize = 65_536;

/// An outside whose recording goes first, over another one that is inside: what is written waits, and is written inside before anything that it tells
/// of can be seen by a peer.
///
/// Each call of the wires but a read first writes out what waits. Once a write has failed inside, nothing is written there any more and no such call is
/// made: each is answered as failed, and a close does nothing.
///
/// Of its sink it tells that it holds what was taken, which may wait still; of its wires neither calls nor lines, since a call that was refused isn't
/// done inside; and its counts of faults are those of the acts done to it. All else is told as it is inside.
#[derive(Drop)]
pub struct Recorded<O: Outside + Drop> {
    /// What is inside.
    pub outside: O,
    /// What waits.
    pub lines: Vec<u8>,
    /// A write has failed inside.
    pub has_failed: bool,
    /// What was done to this outside.
    pub history: History,
    ghost kept: { IsKept (O.told outside).acts history.acts lines.items has_failed },
    ghost room: { 65536 ≤ vec_capacity lines },
}

impl<O: Outside + Drop> Recorded<O> {
    /// An outside to which nothing was done yet. No later call takes memory.
    pub fn new(alloc: Global, outside: O) -> Result<Recorded<O>, NoMemory>
        requires { (O.told outside).acts ≡ [] }
        ensures outside { IfOk result (λ recorded. recorded.outside ≡ outside) }
        ensures history { IfOk result (λ recorded. recorded.history.acts ≡ []) }
    {
        let lines = Vec::with_capacity(alloc, MOST_WAITING)?;
        Ok(Recorded {
            outside,
            lines,
            has_failed: false,
            history: History::new(),
        })
    }

    /// Writes out what waits. Then all that was taken is written inside.
    pub fn write_out(&mut self) -> Result<(), Failed>
        ensures told { told_through self.new.history.acts (O.told self.new.outside) ≡ told_through self.old.history.acts (O.told self.old.outside) }
        ensures written { OnOk result (octets_written_in (O.told self.new.outside).acts ≡ octets_written_in self.new.history.acts) }
        ensures none { OnOk result (self.new.lines.items ≡ []) }
        ensures sound { OnOk result (self.new.has_failed ≡ false) }
        ensures failed { OnErr result (self.new.has_failed ≡ true) }
    {
        if self.has_failed {
            return Err(Failed);
        }
        let lines = self.lines.as_slice();
        if lines.is_empty() {
            return Ok(());
        }
        let answer = self.outside.write(lines);
        self.lines.clear();
        self.has_failed = answer.is_err();
        answer
    }

    // A piece is refused.
    fn refuse(&mut self, piece: &[u8]) -> Result<(), Failed>
        requires { self.old.has_failed ≡ true }
        ensures waits { O.told self.new.outside ≡ O.told self.old.outside }
        ensures does { Did (told_through self.old.history.acts (O.told self.old.outside)) (told_through self.new.history.acts (O.told self.new.outside)) (Wrote piece.now (is_ok result) ∷ []) }
    {
        let refused = Err(Failed);
        self.history.note(&Note::Wrote(piece, &refused));
        refused
    }

    // A piece for which there is room waits.
    fn take(&mut self, piece: &[u8]) -> Result<(), Failed>
        requires { vec_len self.old.lines + length piece.now ≤ 65536 }
        ensures waits { O.told self.new.outside ≡ O.told self.old.outside }
        ensures does { Did (told_through self.old.history.acts (O.told self.old.outside)) (told_through self.new.history.acts (O.told self.new.outside)) (Wrote piece.now (is_ok result) ∷ []) }
    {
        if self.has_failed {
            return self.refuse(piece);
        }
        self.lines.extend_from_slice(piece).unwrap();
        let taken = Ok(());
        self.history.note(&Note::Wrote(piece, &taken));
        taken
    }

    // A piece that is longer than all the room is written at once, where none waits.
    fn write_at_once(&mut self, piece: &[u8]) -> Result<(), Failed>
        requires some { 0 < length piece.now }
        requires none { self.old.lines.items ≡ [] }
        requires sound { self.old.has_failed ≡ false }
        ensures { Did (told_through self.old.history.acts (O.told self.old.outside)) (told_through self.new.history.acts (O.told self.new.outside)) (Wrote piece.now (is_ok result) ∷ []) }
    {
        let answer = self.outside.write(piece);
        self.has_failed = answer.is_err();
        self.history.note(&Note::Wrote(piece, &answer));
        answer
    }
}

impl<O: Outside + Drop> Outside for Recorded<O> {
    ghost told = { λ r. told_through r.history.acts (O.told r.outside) };

    fn fetch(&mut self, alloc: Global, name: &str) -> Result<Vec<u8>, FetchFault> {
        let answer = self.outside.fetch(alloc, name);
        self.history.note(&Note::Fetched(name, &answer));
        answer
    }

    fn write(&mut self, piece: &[u8]) -> Result<(), Failed>
        requires { 0 < length piece.now }
        ensures does { Did (told_through self.old.history.acts (O.told self.old.outside)) (told_through self.new.history.acts (O.told self.new.outside)) (Wrote piece.now (is_ok result) ∷ []) }
        // Nothing is done inside where there is room.
        ensures waits { vec_len self.old.lines + length piece.now ≤ 65536 → O.told self.new.outside ≡ O.told self.old.outside }
    {
        if piece.len() <= MOST_WAITING.saturating_sub(self.lines.len()) {
            return self.take(piece);
        }
        if self.write_out().is_err() {
            return self.refuse(piece);
        }
        if piece.len() <= MOST_WAITING {
            return self.take(piece);
        }
        self.write_at_once(piece)
    }

    fn listen(&mut self, address: &str) -> Result<(), Failed> {
        if self.write_out().is_err() {
            let refused = Err(Failed);
            self.history.note(&Note::Listened(address, &refused));
            return refused;
        }
        let answer = self.outside.listen(address);
        self.history.note(&Note::Listened(address, &answer));
        answer
    }

    fn dial(&mut self, address: &str) -> Result<Conn, Failed> {
        if self.write_out().is_err() {
            let refused = Err(Failed);
            self.history.note(&Note::Dialled(address, &refused));
            return refused;
        }
        let answer = self.outside.dial(address);
        self.history.note(&Note::Dialled(address, &answer));
        answer
    }

    fn turn(&mut self, until: Option<u64>) -> Happening {
        if self.write_out().is_err() {
            self.history.note(&Note::Turned(until, Happening::Failed));
            return Happening::Failed;
        }
        let happening = self.outside.turn(until);
        self.history.note(&Note::Turned(until, happening));
        happening
    }

    fn read(&mut self, conn: Conn, into: &mut [u8]) -> ReadAnswer {
        let answer = self.outside.read(conn, into);
        self.history.note(&Note::Read(conn, into, answer));
        answer
    }

    fn send(&mut self, conn: Conn, piece: &[u8]) -> WriteAnswer {
        if self.write_out().is_err() {
            self.history
                .note(&Note::Sent(conn, piece, WriteAnswer::Failed));
            return WriteAnswer::Failed;
        }
        let answer = self.outside.send(conn, piece);
        self.history.note(&Note::Sent(conn, piece, answer));
        answer
    }

    fn close(&mut self, conn: Conn) {
        if self.write_out().is_err() {
            self.history.note(&Note::Closed(conn));
            return;
        }
        self.outside.close(conn);
        self.history.note(&Note::Closed(conn));
    }

    fn moment(&mut self) -> u64 {
        let moment = self.outside.moment();
        self.history.note(&Note::Asked(moment));
        moment
    }

    fn word(&mut self) -> u64 {
        let word = self.outside.word();
        self.history.note(&Note::Drew(word));
        word
    }
}
