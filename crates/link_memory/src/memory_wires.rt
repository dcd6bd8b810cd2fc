//! Wires in memory.

ghost use Rattle.std.specs.Prelude.{◌≡◌, ◌≤◌, ◌<◌, ◌+◌, ◌-◌, ◌^◌, ◌∷◌, ◌++◌, [], ◌||◌, ℕ, true, length, take, min, slice_set, unwrap_or, is_some, None, Some, if◌then◌else◌, IfOk, IfSome, OnOk, OnErr};
ghost use Rattle.std.specs.Result.{is_ok};
ghost use Rattle.link_trait.specs.Outside.{Grew, Rose};
ghost use Rattle.link_trait.specs.Wires.{Closes, Turns, Reads, reading_of, opened_by_turn, given_of, given_by, octets_taken_by_call, dialled};
ghost use Rattle.link_memory.specs.KeptCalls.{call_of, IsComing, IsUntouched, StaysOpen, advanced, act_of, with_room, when_shut};
ghost use Rattle.link_memory.specs.WiresMemory.{between, new_wires, fits, wires_with_call_kept, wires_with_call_counted, is_to_fail, failed, turn_failed, spends, waits_at, told_calls, told_lines, open_at, line_at, memory_lines_with_change, places_of};
ghost use Rattle.link_memory.specs.WiresMemory.{is_listen_ok, after_listen, dialled_in, after_dial, happening_in, after_turn, read_in, after_read, written_in, after_write_to, after_close, answer_to_read, writes_of, gives, new_line};

use crate::act::{Act, behind, between, copy_brought, count_of, first_act};
use crate::call_record::{CallRecord, Note, put_given};
use crate::memory_line::{MemoryLine, first_open, is_open_at, line_at, open_at};
use crate::planned_calls::PlannedCalls;
use er_base::NoMemory;
use link_trait::{Conn, Failed, Happening, ReadAnswer, Wires, WriteAnswer};
use std::alloc::Global;
use std::marker::Model;

/// Wires in memory, which do what a script says, and tell their calls and what they hold at each connection.
///
/// A turn does the next act of the script, and behind the last one answers Ended; a connection where octets still wait
/// behind a read is Readable again before the next act. A call fails exactly where it was listed by
/// [`fail`](MemoryWires::fail), at a read or write of a connection that isn't open, and where a capacity is spent. Wires that have
/// once found a capacity spent tell nothing from then on.
#[derive(Drop)]
pub struct MemoryWires {
    acts: Vec<Act>,
    done: usize,
    listening: bool,
    lines: Vec<MemoryLine>,
    room: usize,
    again: Vec<u64>,
    heard: usize,
    record: CallRecord,
    spent: bool,
    calls: PlannedCalls,
    faults: u64,
    turn_faults: u64,
}

impl Model for MemoryWires {
    ghost use Rattle.std.specs.Prelude.{◌≤◌, ◌-◌, ◌^◌, vec_len};
    ghost use Rattle.link_memory.specs.KeptCalls.{calls_with_octets, IsCallRecordInOrder};
    ghost use Rattle.link_memory.specs.WiresMemory.{KeptWires};

    ghost Value = { KeptWires };

    ghost view = { λ w. record {
      acts = w.acts.items;
      done = w.done;
      listening = w.listening;
      lines = w.lines.items;
      room = w.room;
      again = w.again.items;
      heard = w.heard;
      calls = calls_with_octets w.acts.items w.record.kept.items w.record.octets.items;
      places = w.record.places;
      octets = vec_len w.record.octets;
      call_places = w.record.call_places;
      octet_places = w.record.octet_places;
      spent = w.spent;
      failing = w.calls.failing.items;
      asked = w.calls.done;
      faults = w.faults;
      turn_faults = w.turn_faults;
    } };

    ghost invariant = { λ w. IsCallRecordInOrder w.acts.items w.record w.lines w.again × (w.faults ≤ 2 ^ 64 - 1) × (w.turn_faults ≤ 2 ^ 64 - 1) };
}

// What a turn brings, how many numbers of connections whose reads left octets it passes, how many acts, and which
// connection becomes another one.
#[derive(Clone, Copy)]
pub struct Coming {
    pub happening: Happening,
    pub passed: usize,
    pub acts: usize,
    pub change: Option<(u64, MemoryLine)>,
}

impl MemoryWires {
    /// Wires with this script. Each connection begins with this room. The record has room for so many calls, and for so
    /// many octets of addresses and of pieces that are written; its memory is reserved once.
    #[tactic(auto, using(crate::proofs::KeptLists::told_new))]
    pub fn new(
        alloc: Global,
        acts: Vec<Act>,
        room: usize,
        calls: usize,
        octets: usize,
    ) -> Result<MemoryWires, NoMemory>
        ensures { IfOk result (λ wires. wires ≡ new_wires acts.items room calls octets) }
    {
        Ok(MemoryWires {
            acts,
            done: 0,
            listening: false,
            lines: Vec::with_capacity(alloc, calls)?,
            room,
            again: Vec::with_capacity(alloc, calls)?,
            heard: 0,
            record: CallRecord::with_capacity(alloc, calls, octets)?,
            spent: false,
            calls: PlannedCalls::new(alloc),
            faults: 0,
            turn_faults: 0,
        })
    }

    /// Lists a call that is to fail, by its number: listens, dials, turns, reads and writes are counted from 1, those that
    /// fail too, and the count stays at 2^64 - 1.
    pub fn fail(&mut self, call: u64) -> Result<(), NoMemory>
        ensures ok { OnOk result (self.new ≡ record self.old { failing = self.old.failing ++ call ∷ [] }) }
        ensures err { OnErr result (self.new ≡ self.old) }
    {
        self.calls.fail(call)
    }

    /// Appends the octets that were given to a connection so far. Where memory runs out, `out` is as it was.
    pub fn given(&self, conn: u64, out: &mut Vec<u8>) -> Result<(), NoMemory>
        ensures ok { OnOk result (out.new.items ≡ out.old.items ++ given_of conn self.now.calls) }
        ensures err { OnErr result (out.new.items ≡ out.old.items) }
    {
        let before = out.len();
        match put_given(&self.record.kept, &self.record.octets, conn, out) {
            Ok(()) => Ok(()),
            Err(want) => {
                out.truncate(before);
                Err(want)
            }
        }
    }

    // Begins a call that can fail, and says whether it is listed.
    fn begin(&mut self) -> bool
        ensures listed { result ≡ is_to_fail self.old }
        ensures called { self.new ≡ wires_with_call_counted self.old }
    {
        self.calls.begin()
    }

    // Whether so many places and octets more fit.
    fn fits(&self, places: usize, octets: usize) -> bool
        ensures { result ≡ fits self.now places octets }
    {
        self.record.fits(places, octets)
    }

    // A call found a capacity spent.
    fn spend(&mut self)
        ensures { self.new ≡ spends self.old }
    {
        self.spent = true;
    }

    // A read or write failed.
    fn count_fault(&mut self)
        ensures failed { self.new ≡ failed self.old }
        ensures most { self.new.faults ≤ 2 ^ 64 - 1 }
    {
        self.faults = self.faults.saturating_add(1);
    }

    // A listen, dial or turn failed.
    fn count_turn_fault(&mut self)
        ensures failed { self.new ≡ turn_failed self.old }
        ensures most { self.new.faults ≤ 2 ^ 64 - 1 }
        ensures turn_most { self.new.turn_faults ≤ 2 ^ 64 - 1 }
    {
        self.faults = self.faults.saturating_add(1);
        self.turn_faults = self.turn_faults.saturating_add(1);
    }

    // Keeps a call that takes one place.
    fn keep(&mut self, note: Note, octets: &[u8])
        requires fits { fits self.old 1 (length octets.now) ≡ true }
        requires taken { (conn : ℕ) → length self.old.lines < conn → octets_taken_by_call conn (call_of self.old.acts octets.now note) ≡ [] }
        requires given { (conn : ℕ) → length self.old.lines < conn → given_by conn (call_of self.old.acts octets.now note) ≡ [] }
        ensures { self.new ≡ wires_with_call_kept self.old (call_of self.old.acts octets.now note) 1 (length octets.now) }
    {
        self.record.keep(note, octets, 1);
    }

    // Keeps a call that opens a connection, which takes two places.
    fn open(&mut self, note: Note, octets: &[u8])
        requires fits { fits self.old 2 (length octets.now) ≡ true }
        requires taken { (conn : ℕ) → octets_taken_by_call conn (call_of self.old.acts octets.now note) ≡ [] }
        requires given { (conn : ℕ) → given_by conn (call_of self.old.acts octets.now note) ≡ [] }
        ensures state { self.new ≡ record (wires_with_call_kept self.old (call_of self.old.acts octets.now note) 2 (length octets.now)) { lines = self.old.lines ++ new_line self.old.done self.old.room ∷ [] } }
        ensures untouched { IsUntouched (length self.old.lines + 1) self.new.calls }
    {
        self.record.keep(note, octets, 2);
        self.lines
            .push(MemoryLine::new(self.done, self.room))
            .unwrap();
    }

    // Puts a line in the place of one that is open, and that stays open.
    fn put(&mut self, conn: u64, line: MemoryLine)
        requires { StaysOpen self.old.lines conn line }
        ensures { self.new ≡ record self.old { lines = slice_set self.old.lines (conn - 1) line } }
    {
        self.lines[conn as usize - 1] = line;
    }

    // Keeps a read that took octets, with the connection as it is then.
    fn keep_taken(&mut self, note: Note, conn: u64, line: MemoryLine)
        requires fits { fits self.old 1 0 ≡ true }
        requires stays { StaysOpen self.old.lines conn line }
        requires taken { (conn : ℕ) → length self.old.lines < conn → octets_taken_by_call conn (call_of self.old.acts [] note) ≡ [] }
        requires given { (conn : ℕ) → given_by conn (call_of self.old.acts [] note) ≡ [] }
        ensures state { self.new ≡ record (wires_with_call_kept self.old (call_of self.old.acts [] note) 1 0) { lines = slice_set self.old.lines (conn - 1) line } }
        ensures room { length self.new.again < length self.new.calls }
    {
        self.record.keep(note, &[], 1);
        self.lines[conn as usize - 1] = line;
    }

    // Octets were left at a connection: a turn is to tell of it once more.
    fn leave(&mut self, conn: u64)
        requires { length self.old.again < length self.old.calls }
        ensures { self.new ≡ record self.old { again = self.old.again ++ conn ∷ [] } }
    {
        self.again.push(conn).unwrap();
    }

    // Keeps the close of an open connection, in the place that it has.
    fn keep_close(&mut self, conn: u64)
        requires { is_some (open_at self.old.lines conn) ≡ true }
        ensures { self.new ≡ record (wires_with_call_kept self.old (Closes conn) 0 0) { lines = memory_lines_with_change self.old.lines conn (λ line. record line { closed = Some self.old.done }) } }
    {
        if let Some(line) = open_at(&self.lines, conn) {
            self.record.keep(Note::Close { conn }, &[], 0);
            self.lines[conn as usize - 1] = MemoryLine {
                closed: Some(self.done),
                ..line
            };
        }
    }

    // The connection of this number, where it is open and the call isn't to fail.
    #[tactic(auto, using(crate::proofs::KeptLists::open_within, crate::proofs::KeptLists::open_found))]
    fn open_line(&self, conn: u64, is_to_fail: bool) -> Option<MemoryLine>
        ensures line { result ≡ if is_to_fail then None else open_at self.now.lines conn }
        ensures within { IfSome result (λ line. conn ≤ length self.now.lines) }
        ensures there { IfSome result (λ line. line_at self.now.lines conn ≡ Some line) }
    {
        if is_to_fail {
            return None;
        }
        open_at(&self.lines, conn)
    }

    // How many octets wait at a connection.
    fn waiting(&self, conn: u64) -> u128
        ensures waits { result ≡ length (waits_at self.now conn) }
        ensures bound { IfSome (line_at self.now.lines conn) (λ line. line.taken + result < 2 ^ 128) }
    {
        match line_at(&self.lines, conn) {
            Some(line) => count_of(self.acts_of(&line), conn).saturating_sub(line.taken),
            None => 0,
        }
    }

    // Puts octets that wait at a connection into the slice, as far as it goes, and answers how many.
    fn copy_waiting(&self, conn: u64, line: &MemoryLine, into: &mut [u8]) -> usize
        requires { line_at self.now.lines conn ≡ Some line.now }
        ensures length { length into.new ≡ length into.old }
        ensures count { result ≡ min (length into.old) (length (waits_at self.now conn)) }
        ensures copied { take result into.new ≡ take result (waits_at self.now conn) }
    {
        copy_brought(self.acts_of(line), conn, line.taken, into)
    }

    // The acts that were done while a connection was open.
    fn acts_of(&self, line: &MemoryLine) -> &[Act]
        ensures { result.now ≡ between line.now.from (unwrap_or line.now.closed self.now.done) self.now.acts }
    {
        between(&self.acts, line.from, line.closed.unwrap_or(self.done))
    }

    // A turn that is listed fails.
    fn turn_to_fail(&mut self, until: Option<u64>)
        ensures state { self.new ≡ if fits self.old 1 0 then turn_failed (wires_with_call_kept self.old (Turns until Happening.Failed) 1 0) else turn_failed (spends self.old) }
        ensures most { self.new.faults ≤ 2 ^ 64 - 1 }
        ensures turn_most { self.new.turn_faults ≤ 2 ^ 64 - 1 }
    {
        if self.fits(1, 0) {
            self.keep(
                Note::Turn {
                    until,
                    happening: Happening::Failed,
                },
                &[],
            );
        } else {
            self.spend();
        }
        self.count_turn_fault();
    }

    // What a turn brings next.
    fn coming(&self) -> Coming
        ensures { IsComing self.now result }
    {
        let left = behind(&self.acts, self.done);
        let (passed, again) = first_open(&self.lines, behind(&self.again, self.heard));
        match again {
            Some(conn) => Coming {
                happening: Happening::Readable(Conn(conn)),
                passed,
                acts: 0,
                change: None,
            },
            None => {
                let (acts, act) = first_act(left, self.listening);
                match act {
                    None => Coming {
                        happening: Happening::Ended,
                        passed,
                        acts,
                        change: None,
                    },
                    Some(act) => {
                        let (happening, change) = self.act_of(act);
                        Coming {
                            happening,
                            passed,
                            acts,
                            change,
                        }
                    }
                }
            }
        }
    }

    // The happening of an act, and the connection that becomes another one by it.
    fn act_of(&self, act: &Act) -> (Happening, Option<(u64, MemoryLine)>)
        ensures { result ≡ act_of self.now.lines act.now }
    {
        match act {
            Act::Accept => (Happening::Accepted(Conn(self.lines.len() as u64 + 1)), None),
            Act::Bring { conn, .. } => (Happening::Readable(Conn(*conn)), None),
            Act::Room { conn, room } => (
                Happening::Writable(Conn(*conn)),
                self.with_room(*conn, *room),
            ),
            Act::Shut { conn } => (Happening::Readable(Conn(*conn)), self.shut(*conn)),
            Act::Quiet => (Happening::Quiet, None),
        }
    }

    // A connection that is open, with this room.
    fn with_room(&self, conn: u64, room: usize) -> Option<(u64, MemoryLine)>
        ensures { result ≡ with_room self.now.lines conn room }
    {
        let line = open_at(&self.lines, conn)?;
        Some((conn, MemoryLine { room, ..line }))
    }

    // A connection that is open, when its peer has closed.
    fn shut(&self, conn: u64) -> Option<(u64, MemoryLine)>
        ensures { result ≡ when_shut self.now.lines conn }
    {
        let line = open_at(&self.lines, conn)?;
        Some((
            conn,
            MemoryLine {
                is_shut: true,
                ..line
            },
        ))
    }

    // Passes what a turn passes, and changes the connection that it changes.
    fn advance(&mut self, coming: Coming)
        requires passed { self.old.heard + coming.passed < 2 ^ 64 }
        requires acts { self.old.done + coming.acts < 2 ^ 64 }
        requires change { IfSome coming.change (λ c. StaysOpen self.old.lines c.0 c.1) }
        ensures { self.new ≡ advanced self.old coming }
    {
        self.heard += coming.passed;
        self.done += coming.acts;
        if let Some((conn, line)) = coming.change {
            self.put(conn, line);
        }
    }
}

// The places that a happening takes.
fn places_of(happening: Happening) -> usize
    ensures { result ≡ places_of happening }
{
    match happening {
        Happening::Accepted(_) => 2,
        Happening::Readable(_)
        | Happening::Writable(_)
        | Happening::Quiet
        | Happening::Ended
        | Happening::Failed => 1,
    }
}

// The note of a read that took nothing.
fn read_note(conn: u64, size: usize, waiting: u128, answer: ReadAnswer) -> Note
    ensures { result ≡ Note.Read conn size waiting answer 0 0 0 }
{
    Note::Read {
        conn,
        size,
        waiting,
        answer,
        from: 0,
        to: 0,
        taken: 0,
    }
}

impl Wires for MemoryWires {
    ghost state = { λ s. record {
      calls = told_calls s;
      lines = told_lines s;
      opened = length s.lines;
      listening = s.listening;
      faults = s.faults;
      turn_faults = s.turn_faults;
    } };

    fn listen(&mut self, address: &str) -> Result<(), Failed>
        ensures answer { is_ok result ≡ is_listen_ok self.old address.now }
        ensures state { self.new ≡ after_listen self.old address.now }
        ensures most { self.new.faults ≤ 2 ^ 64 - 1 }
        ensures turn_most { self.new.turn_faults ≤ 2 ^ 64 - 1 }
    {
        let is_to_fail = self.begin();
        if !self.fits(1, address.len()) {
            self.spend();
            self.count_turn_fault();
            return Err(Failed);
        }
        self.keep(Note::Listen { is_ok: !is_to_fail }, address.as_bytes());
        if is_to_fail {
            self.count_turn_fault();
            return Err(Failed);
        }
        self.listening = true;
        Ok(())
    }

    fn dial(&mut self, address: &str) -> Result<Conn, Failed>
        ensures answer { dialled result ≡ dialled_in self.old address.now }
        ensures state { self.new ≡ after_dial self.old address.now }
        ensures untouched { IfOk result (λ conn. IsUntouched conn.0 self.new.calls) }
        ensures most { self.new.faults ≤ 2 ^ 64 - 1 }
        ensures turn_most { self.new.turn_faults ≤ 2 ^ 64 - 1 }
    {
        let is_to_fail = self.begin();
        if !self.fits(if is_to_fail { 1 } else { 2 }, address.len()) {
            self.spend();
            self.count_turn_fault();
            return Err(Failed);
        }
        if is_to_fail {
            self.keep(Note::Dial { conn: None }, address.as_bytes());
            self.count_turn_fault();
            return Err(Failed);
        }
        let conn = self.lines.len() as u64 + 1;
        self.open(Note::Dial { conn: Some(conn) }, address.as_bytes());
        Ok(Conn(conn))
    }

    fn turn(&mut self, until: Option<u64>) -> Happening
        ensures answer { result ≡ happening_in self.old }
        ensures state { self.new ≡ after_turn self.old until }
        ensures untouched { (conn : Conn) → result ≡ Happening.Accepted conn → IsUntouched conn.0 self.new.calls }
        ensures number { (conn : Conn) → result ≡ Happening.Accepted conn → conn.0 ≡ length self.old.lines + 1 }
        ensures accepted { (conn : Conn) → result ≡ Happening.Accepted conn → self.old.listening ≡ true }
        ensures opened { length self.new.lines ≡ opened_by_turn result (length self.old.lines) }
        ensures listening { self.new.listening ≡ self.old.listening }
        ensures most { self.new.faults ≤ 2 ^ 64 - 1 }
        ensures turn_most { self.new.turn_faults ≤ 2 ^ 64 - 1 }
    {
        let (_faults, _turn_faults) = (self.faults, self.turn_faults);
        if self.begin() {
            self.turn_to_fail(until);
            return Happening::Failed;
        }
        let coming = self.coming();
        if !self.fits(places_of(coming.happening), 0) {
            self.spend();
            self.count_turn_fault();
            return Happening::Failed;
        }
        let note = Note::Turn {
            until,
            happening: coming.happening,
        };
        self.advance(coming);
        if places_of(coming.happening) == 2 {
            self.open(note, &[]);
        } else {
            self.keep(note, &[]);
        }
        coming.happening
    }

    #[tactic(auto, using(crate::proofs::Reading::read_answers, crate::proofs::Reading::read_leaves, crate::proofs::Reading::read_takes_all, crate::proofs::Reading::read_fits, crate::proofs::KeptLists::taken_from_other))]
    fn read(&mut self, conn: Conn, into: &mut [u8]) -> ReadAnswer
        requires { 0 < length into.old }
        ensures answer { result ≡ read_in self.old conn.0 (length into.old) }
        ensures state { self.new ≡ after_read self.old conn.0 (length into.old) }
        ensures gave { reading_of result into.new ≡ gives result (waits_at self.old conn.0) }
        ensures length { length into.new ≡ length into.old }
        ensures fits { (n : ℕ) → result ≡ ReadAnswer.Some n → (1 ≤ n) × (n ≤ length into.old) }
        ensures opened { length self.new.lines ≡ length self.old.lines }
        ensures listening { self.new.listening ≡ self.old.listening }
        ensures count { self.old.faults ≤ self.new.faults }
        ensures cause { result ≡ ReadAnswer.Failed → Rose self.old.faults self.new.faults }
        ensures most { self.new.faults ≤ 2 ^ 64 - 1 }
        ensures turn_count { self.new.turn_faults ≡ self.old.turn_faults }
    {
        let _faults = self.faults;
        let is_to_fail = self.begin();
        if !self.fits(1, 0) {
            self.spend();
            self.count_fault();
            return ReadAnswer::Failed;
        }
        let waiting = self.waiting(conn.0);
        let Some(line) = self.open_line(conn.0, is_to_fail) else {
            let note = read_note(conn.0, into.len(), waiting, ReadAnswer::Failed);
            self.keep(note, &[]);
            self.count_fault();
            return ReadAnswer::Failed;
        };
        if waiting == 0 {
            let answer = if line.is_shut {
                ReadAnswer::End
            } else {
                ReadAnswer::NotNow
            };
            self.keep(read_note(conn.0, into.len(), 0, answer), &[]);
            return answer;
        }
        let count = self.copy_waiting(conn.0, &line, into);
        let answer = ReadAnswer::Some(count);
        let to = line.closed.unwrap_or(self.done);
        let note = Note::Read {
            conn: conn.0,
            size: into.len(),
            waiting,
            answer,
            from: line.from,
            to,
            taken: line.taken,
        };
        self.keep_taken(
            note,
            conn.0,
            MemoryLine {
                taken: line.taken + count as u128,
                ..line
            },
        );
        if (count as u128) < waiting {
            self.leave(conn.0);
        }
        answer
    }

    #[tactic(auto, using(crate::proofs::KeptLists::given_to_other))]
    fn write(&mut self, conn: Conn, piece: &[u8]) -> WriteAnswer
        ensures answer { result ≡ written_in self.old conn.0 (length piece.now) }
        ensures state { self.new ≡ after_write_to self.old conn.0 piece.now }
        ensures most { self.new.faults ≤ 2 ^ 64 - 1 }
    {
        let _faults = self.faults;
        let is_to_fail = self.begin();
        if !self.fits(1, piece.len()) {
            self.spend();
            self.count_fault();
            return WriteAnswer::Failed;
        }
        let Some(line) = self.open_line(conn.0, is_to_fail) else {
            self.keep(
                Note::Write {
                    conn: conn.0,
                    answer: WriteAnswer::Failed,
                },
                piece,
            );
            self.count_fault();
            return WriteAnswer::Failed;
        };
        if line.room == 0 {
            self.keep(
                Note::Write {
                    conn: conn.0,
                    answer: WriteAnswer::NotNow,
                },
                piece,
            );
            return WriteAnswer::NotNow;
        }
        let count = piece.len().min(line.room);
        self.keep(
            Note::Write {
                conn: conn.0,
                answer: WriteAnswer::Some(count),
            },
            piece,
        );
        self.put(
            conn.0,
            MemoryLine {
                room: line.room - count,
                ..line
            },
        );
        WriteAnswer::Some(count)
    }

    fn close(&mut self, conn: Conn)
        ensures state { self.new ≡ after_close self.old conn.0 }
        ensures most { self.new.faults ≤ 2 ^ 64 - 1 }
    {
        let _faults = self.faults;
        if is_open_at(&self.lines, conn.0) {
            self.keep_close(conn.0);
        } else if self.fits(1, 0) {
            self.keep(Note::Close { conn: conn.0 }, &[]);
        } else {
            self.spend();
            self.count_fault();
        }
    }
}
