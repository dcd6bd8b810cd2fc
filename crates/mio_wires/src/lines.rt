//! The connections: those that are open, with what happened at them, and those that leave.

ghost use Rattle.std.specs.Prelude.{◌≡◌, ◌==◌, ◌<◌, ◌≤◌, ◌+◌, ◌⊎◌, true, Some, [], ◌∷◌, length, Ok, IfSome, IsSome, IsSomeAnd};
ghost use Rattle.std.specs.IoError.{error_kind};
ghost use Rattle.std.specs.Io.{ReadsAtMost, WritesAtMost};
ghost use Rattle.slab.specs.Slab.{get};
ghost use Rattle.mio_wires.specs.Leaving.{first_until, staying, others};
ghost use Rattle.mio_wires.specs.Queueing.{Takes, Forgets, IsAdded, behind, told_at_act};
ghost use Rattle.mio_wires.specs.Standing.{HasRoomForHappening, StandsIn, IsConnectionOpen, HasSlot, IsOfOpen, IsClosed, count};
ghost use Rattle.mio_wires.specs.Awaiting.{LeavesNothing, AwaitsRoom};

use crate::leavers::Leavers;
use crate::queue::{Queue, Seen};
use crate::stream::Stream;
use er_base::NoMemory;
use mio::event::Event;
use mio::net::{TcpStream, UnixStream};
use mio::{Events, Token};
use slab::Slab;
use std::alloc::Global;
use std::io;
use std::io::ErrorKind;
use std::net::SocketAddr;

/// The most connections that are open at once: 256 that are live, and one that is accepted to be closed.
pub const MOST_CONNECTIONS: usize = 257;

/// The same where each of the 256 has another one dialled for it.
pub const MOST_PAIRED: usize = 2 * 256 + 1;

// The application, which is beside the most of connections: theirs begin at 1.
pub const APPLICATION: u64 = 0;

// The most connections that leave at once.
pub const MOST_LEAVING: usize = 256;

// Each connection has a slot, below this, which is its token, and so has the application.
const SLOTS: usize = MOST_PAIRED + MOST_LEAVING + 1;

pub const LISTENER: Token = Token(SLOTS);

// Where the application comes.
pub const DOOR: Token = Token(SLOTS + 1);

// How many octets are read away from one that leaves.
const MOST_READ_AWAY: usize = 262_144;

// At so many octets a read.
const PIECE: usize = 4_096;

// How a connection begins.
#[derive(Clone, Copy, PartialEq, Eq)]
pub enum Start {
    Accepted,
    // It isn't made yet, which is told as room for writing.
    Dialled,
    // It was accepted and couldn't be registered: nothing is read from it and written to it.
    Dead,
}

// A connection: its number and its socket, and whether a happening of either kind may stand in the queue.
#[derive(Drop)]
pub struct Line {
    number: u64,
    stream: Stream,
    is_dead: bool,
    is_readable: bool,
    is_writable: bool,
    // Whether room for writing is to be told: a socket reports it beside all that comes, and mostly nobody waits for it.
    awaits_room: bool,
    // Of one that leaves: how many octets may still come.
    left: Option<usize>,
}

impl Line {
    // Says that no more is sent, where the peer may have more to say, and whether it may. Else closing the socket says it.
    fn shuts(&mut self) -> bool {
        self.left = Some(MOST_READ_AWAY);
        !self.is_dead && !self.has_ended() && self.stream.shuts()
    }

    // Reads, and writes.
    fn read(&self, into: &mut [u8]) -> io::Result<usize>
        ensures bound { ReadsAtMost result into.new }
        ensures length { length into.new ≡ length into.old }
    {
        if self.is_dead {
            return Err(gone());
        }
        self.stream.read(into)
    }

    fn write(&self, piece: &[u8]) -> io::Result<usize>
        ensures bound { WritesAtMost result piece.now }
    {
        if self.is_dead {
            return Err(gone());
        }
        self.stream.write(piece)
    }

    // Reads away what waits, and whether this is the end: the peer has closed, the connection failed, or too much came.
    fn has_ended(&mut self) -> bool {
        let mut octets = [0; PIECE];
        for _ in 0..=MOST_READ_AWAY / PIECE {
            match self.stream.read(&mut octets) {
                Ok(0) => return true,
                Ok(count) => {
                    let left = self.left.unwrap_or(0).saturating_sub(count);
                    self.left = Some(left);
                    if left == 0 {
                        return true;
                    }
                }
                Err(error) if error.kind() == ErrorKind::WouldBlock => return false,
                Err(error) if error.kind() == ErrorKind::Interrupted => {}
                Err(_) => return true,
            }
        }
        true
    }
}

// Where the connection of a number is.
#[derive(Clone, Copy)]
pub struct Place {
    number: u64,
    slot: usize,
}

#[derive(Drop)]
pub struct Lines {
    // The most connections that are open at once.
    most: usize,
    slots: Slab<Line>,
    // The open connections by their numbers, which rise: the application stands first, and the newest last.
    places: Vec<Place>,
    leaving: Leavers,
    queue: Queue,
}

impl Lines {
    // No connection, with the memory for all that can be: at most so many that are open, the application, and those that leave. In the queue stand the two
    // where peers and the application come, and two happenings a connection.
    pub fn new(alloc: Global, most: usize) -> Result<Lines, NoMemory>
        requires { most ≤ 513 }
    {
        Ok(Lines {
            most,
            slots: Slab::with_capacity(alloc, most + 1 + MOST_LEAVING)?,
            places: Vec::with_capacity(alloc, most + 1)?,
            leaving: Leavers::with_capacity(alloc, MOST_LEAVING)?,
            queue: Queue::with_capacity(alloc, 2 * (most + 1) + 2)?,
        })
    }

    // Whether as many connections are open as can be. The application is none of them.
    pub fn is_full(&self) -> bool {
        let connections = self
            .places
            .len()
            .saturating_sub(usize::from(self.is_attached()));
        connections >= self.most
    }

    // Whether the application is there.
    pub fn is_attached(&self) -> bool
        ensures { result ≡ true → IsConnectionOpen self.now.places.items 0 }
    {
        self.slot_of(APPLICATION).is_some()
    }

    // Whether no happening stands in the queue.
    pub fn is_quiet(&self) -> bool
        ensures { result ≡ (count self.now.queue == 0) }
    {
        self.queue.is_empty()
    }

    // Whether one more happening has its place in the queue.
    pub fn has_room(&self) -> bool
        ensures { result ≡ true → HasRoomForHappening self.now.queue }
    {
        self.queue.has_room()
    }

    // The slot of the connection that is opened next.
    pub fn next_slot(&self) -> usize {
        self.slots.vacant_key()
    }

    // Keeps the socket under this number, which is above those before it. A dead one is said to be readable, so that
    // whoever reads from it learns of its end. False where there is no memory for it.
    pub fn open(&mut self, number: u64, stream: TcpStream, start: Start) -> bool {
        let is_dead = start == Start::Dead;
        let line = Line {
            number,
            stream: Stream::Tcp(stream),
            is_dead,
            is_readable: is_dead,
            is_writable: false,
            awaits_room: start == Start::Dialled,
            left: None,
        };
        let Ok(slot) = self.slots.insert(line) else {
            return false;
        };
        if is_dead {
            self.queue.add(Seen::Readable(number), false);
        }
        self.places.push(Place { number, slot }).is_ok()
    }

    // Keeps the application's socket, under a number that is below all others. False where there is no memory for it.
    pub fn attach(&mut self, stream: UnixStream) -> bool
        ensures open { result ≡ true → IsConnectionOpen self.new.places.items 0 }
        ensures queue { self.new.queue ≡ self.old.queue }
    {
        let line = Line {
            number: APPLICATION,
            stream: Stream::Unix(stream),
            is_dead: false,
            is_readable: false,
            is_writable: false,
            awaits_room: false,
            left: None,
        };
        let Ok(slot) = self.slots.insert(line) else {
            return false;
        };
        let place = Place {
            number: APPLICATION,
            slot,
        };
        self.places.insert(0, place).is_ok()
    }

    // The listener is to be tried.
    pub fn try_listener(&mut self)
        ensures stands { HasRoomForHappening self.old.queue → StandsIn self.new.queue Seen.Listener }
        ensures order { HasRoomForHappening self.old.queue → IsAdded self.old.queue.seen.items Seen.Listener self.new.queue.seen.items }
        ensures places { self.new.places ≡ self.old.places }
    {
        self.queue.add_listener();
    }

    // It is to be tried whether the application comes.
    pub fn try_door(&mut self)
        ensures stands { HasRoomForHappening self.old.queue → StandsIn self.new.queue Seen.Door }
        ensures order { HasRoomForHappening self.old.queue → IsAdded self.old.queue.seen.items Seen.Door self.new.queue.seen.items }
        ensures stay { (what : Seen) → StandsIn self.old.queue what → StandsIn self.new.queue what }
        ensures places { self.new.places ≡ self.old.places }
    {
        self.queue.add(Seen::Door, true);
    }

    // All that the system tells of the listener and of connections.
    pub fn hear_all(&mut self, events: &Events)
        ensures { self.new.places ≡ self.old.places }
    {
        for event in events.iter() {
            if event.token() == LISTENER {
                self.try_listener();
            } else if event.token() == DOOR {
                self.try_door();
            } else {
                self.hear(event);
            }
        }
    }

    // What is told of the connection in a slot: of an open one it comes to stand in the queue, one that leaves is read
    // away from.
    fn hear(&mut self, event: &Event)
        ensures { self.new.places ≡ self.old.places }
    {
        let slot = event.token().0;
        if self.leaves(slot) {
            self.read_away(slot);
            return;
        }
        if event.is_readable() || event.is_read_closed() || event.is_error() {
            self.hear_readable(slot);
        }
        if event.is_writable() {
            self.hear_writable(slot);
        }
    }

    // Whether the connection in this slot leaves.
    fn leaves(&self, slot: usize) -> bool {
        self.slots.get(slot).is_some_and(|line| line.left.is_some())
    }

    // The connection in this slot, which leaves, is read away from, and goes where that was the end.
    fn read_away(&mut self, slot: usize)
        ensures { self.new.places ≡ self.old.places }
    {
        if let Some(line) = self.slots.get_mut(slot) {
            if line.has_ended() {
                self.let_go(slot);
            }
        }
    }

    // Octets may wait at the connection in this slot.
    fn hear_readable(&mut self, slot: usize)
        ensures stands { HasRoomForHappening self.old.queue → IfSome (get self.old.slots slot) (λ line. StandsIn self.new.queue (Seen.Readable line.number)) }
        ensures places { self.new.places ≡ self.old.places }
    {
        let Some(line) = self.slots.get_mut(slot) else {
            return;
        };
        let seen = Seen::Readable(line.number);
        let may_stand = line.is_readable;
        line.is_readable = true;
        self.queue.add(seen, may_stand);
    }

    // There is room for writing to the connection in this slot, which is told where somebody waits for it.
    fn hear_writable(&mut self, slot: usize)
        ensures stands { HasRoomForHappening self.old.queue → IfSome (get self.old.slots slot) (λ line. line.awaits_room ≡ true → StandsIn self.new.queue (Seen.Writable line.number)) }
        ensures places { self.new.places ≡ self.old.places }
    {
        let Some(line) = self.slots.get_mut(slot) else {
            return;
        };
        if !line.awaits_room {
            return;
        }
        let seen = Seen::Writable(line.number);
        let may_stand = line.is_writable;
        line.awaits_room = false;
        line.is_writable = true;
        self.queue.add(seen, may_stand);
    }

    // Takes the first of what happened, where its connection is still open. It may come to stand in the queue again then.
    pub fn take(&mut self) -> Option<Seen>
        ensures open { IfSome result (IsOfOpen self.old.places.items) }
        ensures first { IfSome result (λ seen. told_at_act Takes self.old.queue.seen.items ≡ seen ∷ []) }
        ensures rest { self.new.queue.seen.items ≡ behind Takes self.old.queue.seen.items }
        ensures places { self.new.places ≡ self.old.places }
    {
        let seen = self.queue.next()?;
        match seen {
            Seen::Listener | Seen::Door => Some(seen),
            Seen::Readable(number) => {
                let slot = self.slot_of(number)?;
                self.slots.get_mut(slot)?.is_readable = false;
                Some(seen)
            }
            Seen::Writable(number) => {
                let slot = self.slot_of(number)?;
                self.slots.get_mut(slot)?.is_writable = false;
                Some(seen)
            }
        }
    }

    // The address of the peer of the connection of this number.
    pub fn peer(&self, number: u64) -> Option<SocketAddr> {
        self.line_of(number)?.1.stream.peer()
    }

    // Reads from the connection of this number.
    pub fn read(&self, number: u64, into: &mut [u8]) -> io::Result<usize>
        ensures bound { ReadsAtMost result into.new }
        ensures length { length into.new ≡ length into.old }
    {
        match self.line_of(number) {
            Some((_, line)) => line.read(into),
            None => Err(gone()),
        }
    }

    // Writes to the connection of this number. Where that leaves octets, room is to be told, but for one that is gone.
    pub fn write(&mut self, number: u64, piece: &[u8]) -> io::Result<usize>
        ensures bound { WritesAtMost result piece.now }
        ensures awaits { LeavesNothing result (length piece.now) ⊎ AwaitsRoom self.new number }
        ensures queue { self.new.queue ≡ self.old.queue }
    {
        let Some((slot, line)) = self.line_of(number) else {
            return Err(gone());
        };
        let answer = line.write(piece);
        if !is_whole(&answer, piece.len()) {
            self.await_room(slot);
        }
        answer
    }

    // Room for writing to the connection in this slot is to be told.
    fn await_room(&mut self, slot: usize)
        ensures awaits { IsSome (get self.old.slots slot) → IsSomeAnd (get self.new.slots slot) (λ line. line.awaits_room ≡ true) }
        ensures places { self.new.places ≡ self.old.places }
        ensures queue { self.new.queue ≡ self.old.queue }
    {
        if let Some(line) = self.slots.get_mut(slot) {
            line.awaits_room = true;
        }
    }

    // Octets may wait at the connection of this number.
    pub fn tell_readable(&mut self, number: u64)
        ensures stands { HasRoomForHappening self.old.queue → StandsIn self.new.queue (Seen.Readable number) }
        ensures order { HasRoomForHappening self.old.queue → IsAdded self.old.queue.seen.items (Seen.Readable number) self.new.queue.seen.items }
    {
        let may_stand = self.mark_readable(number);
        self.queue.add(Seen::Readable(number), may_stand);
    }

    // There may be room for writing to the connection of this number.
    pub fn tell_writable(&mut self, number: u64)
        ensures stands { HasRoomForHappening self.old.queue → StandsIn self.new.queue (Seen.Writable number) }
        ensures order { HasRoomForHappening self.old.queue → IsAdded self.old.queue.seen.items (Seen.Writable number) self.new.queue.seen.items }
    {
        let may_stand = self.mark_writable(number);
        self.queue.add(Seen::Writable(number), may_stand);
    }

    // Notes that this happening stands in the queue, and whether it may have stood there before.
    fn mark_readable(&mut self, number: u64) -> bool
        ensures { self.new.queue ≡ self.old.queue }
    {
        let Some(slot) = self.slot_of(number) else {
            return true;
        };
        let Some(line) = self.slots.get_mut(slot) else {
            return true;
        };
        let may_stand = line.is_readable;
        line.is_readable = true;
        may_stand
    }

    // The same of the other kind.
    fn mark_writable(&mut self, number: u64) -> bool
        ensures { self.new.queue ≡ self.old.queue }
    {
        let Some(slot) = self.slot_of(number) else {
            return true;
        };
        let Some(line) = self.slots.get_mut(slot) else {
            return true;
        };
        let may_stand = line.is_writable;
        line.is_writable = true;
        may_stand
    }

    // The connection of this number isn't open any more: it leaves.
    pub fn close(&mut self, number: u64, now: u64)
        ensures closed { IsClosed self.new.places.items number }
        ensures room { HasRoomForHappening self.old.queue → HasRoomForHappening self.new.queue }
        ensures others { self.new.queue.seen.items ≡ behind (Forgets number) self.old.queue.seen.items }
    {
        self.queue.forget(number);
        let slot = self.slot_of(number);
        self.strike(number);
        if let Some(slot) = slot {
            self.leave(slot, now);
        }
    }

    // Takes the number out of those of open connections.
    fn strike(&mut self, number: u64)
        ensures closed { IsClosed self.new.places.items number }
        ensures queue { self.new.queue ≡ self.old.queue }
    {
        self.places.retain(|place| place.number != number);
    }

    // All connections leave.
    pub fn close_all(&mut self, now: u64)
        ensures { self.new.places.items ≡ [] }
    {
        for _ in 0..self.places.len() {
            if let Some(place) = self.places.pop() {
                self.leave(place.slot, now);
            }
        }
    }

    // The connection in this slot says that it sends no more, and goes as soon as its peer has closed too.
    fn leave(&mut self, slot: usize, now: u64)
        ensures places { self.new.places ≡ self.old.places }
        ensures queue { self.new.queue ≡ self.old.queue }
    {
        let stays = match self.slots.get_mut(slot) {
            Some(line) => line.shuts(),
            None => return,
        };
        if stays && self.leaving.len() >= MOST_LEAVING {
            self.let_first_go();
        }
        if !stays || !self.leaving.add(slot, now) {
            let _closed = self.slots.try_remove(slot);
        }
    }

    // Whether a connection leaves.
    pub fn any_leaves(&self) -> bool {
        self.leaving.len() > 0
    }

    // The moment at which one that leaves has to be gone.
    pub fn first_to_go(&self) -> Option<u64>
        ensures { result ≡ first_until self.now.leaving.waits }
    {
        self.leaving.first()
    }

    // Closes those that have to be gone by this moment.
    pub fn let_go_by(&mut self, now: u64)
        ensures leaving { self.new.leaving.waits ≡ staying now self.old.leaving.waits }
        ensures places { self.new.places ≡ self.old.places }
        ensures queue { self.new.queue ≡ self.old.queue }
    {
        for _ in 0..self.leaving.len() {
            let Some(slot) = self.leaving.take_due(now) else {
                return;
            };
            let _closed = self.slots.try_remove(slot);
        }
    }

    // Closes the one that leaves longest.
    pub fn let_first_go(&mut self)
        ensures places { self.new.places ≡ self.old.places }
        ensures queue { self.new.queue ≡ self.old.queue }
    {
        if let Some(slot) = self.leaving.take_first() {
            let _closed = self.slots.try_remove(slot);
        }
    }

    // Closes one that leaves.
    fn let_go(&mut self, slot: usize)
        ensures leaving { self.new.leaving.waits ≡ others slot self.old.leaving.waits }
        ensures places { self.new.places ≡ self.old.places }
        ensures queue { self.new.queue ≡ self.old.queue }
    {
        self.leaving.forget(slot);
        let _closed = self.slots.try_remove(slot);
    }

    // The connection of this number, and its slot.
    fn line_of(&self, number: u64) -> Option<(usize, &Line)>
        ensures number { IfSome result (λ found. found.1.now.number ≡ number) }
        ensures slot { IfSome result (λ found. (get self.now.slots found.0 ≡ Some found.1.now) × HasSlot self.now.places.items number found.0) }
    {
        let slot = self.slot_of(number)?;
        let line = self.slots.get(slot)?;
        if line.number == number {
            Some((slot, line))
        } else {
            None
        }
    }

    // The slot of the connection of this number.
    fn slot_of(&self, number: u64) -> Option<usize>
        ensures open { IfSome result (λ _. IsConnectionOpen self.now.places.items number) }
        ensures place { IfSome result (HasSlot self.now.places.items number) }
    {
        let at = self
            .places
            .binary_search_by_key(&number, |place| place.number)
            .ok()?;
        let place = self.places.get(at)?;
        if place.number != number {
            return None;
        }
        Some(place.slot)
    }
}

// Whether a write took the whole piece.
fn is_whole(answer: &io::Result<usize>, length: usize) -> bool
    ensures { result ≡ true → answer.now ≡ Ok length }
{
    match answer {
        Ok(count) => *count == length,
        Err(_) => false,
    }
}

// What a read or write answers at a connection that isn't open, or is dead.
fn gone() -> io::Error
    ensures { error_kind result ≡ ErrorKind.BrokenPipe }
{
    io::Error::from(ErrorKind::BrokenPipe)
}
