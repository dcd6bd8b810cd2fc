//! The sockets, what `mio` reports of them, and nothing of numbers and counts of faults.

ghost use Rattle.std.specs.Prelude.{◌≡◌, ◌<◌, ◌≤◌, ◌+◌, ◌⊎◌, ℕ, [], length, IfOk, IfSome, IsSome, IsSomeAnd, true, false};
ghost use Rattle.std.specs.Duration.{as_nanos};
ghost use Rattle.std.specs.IoError.{error_kind};
ghost use Rattle.mio_wires.specs.Standing.{HasRoomForHappening, StandsIn, IsConnectionOpen, IsClosed, count};
ghost use Rattle.mio_wires.specs.Awaiting.{AwaitsRoom};
ghost use Rattle.mio_wires.specs.Leaving.{first_until};
ghost use Rattle.mio_wires.specs.Moments.{wires_moment};
ghost use Rattle.mio_wires.specs.Waiting.{WaitsUntil, earlier};

use crate::accepting::accept;
use crate::door::Door;
use crate::faults::WireFault;
use crate::lines::{DOOR, LISTENER, Lines, MOST_LEAVING, Start};
use crate::moments::Moments;
use crate::options::set_for_frames;
use crate::queue::Seen;
use er_base::NoMemory;
use link_trait::{ReadAnswer, WriteAnswer};
use mio::event::Source;
use mio::net::{TcpListener, TcpStream, UnixStream};
use mio::{Events, Interest, Poll, Token};
use std::alloc::Global;
use std::fs::Files;
use std::io;
use std::io::{ErrorKind, Read, Write};
use std::net::{Net, SocketAddr};
use std::rt::Clock;
use std::time::Duration;

// An accept that failed is tried again after so many milliseconds.
const ACCEPT_AGAIN: u64 = 500;

// Where the fault is the connection's it is tried at once, so many times in a row.
const MOST_AT_ONCE: u8 = 64;

// So many answers in a row at the most come from the queue, and the system isn't asked what happened. A connection at which
// something always stands keeps neither peers that come nor other connections from being heard of for longer.
const MOST_UNASKED: u8 = 16;

// How often it is heard of connections that leave before the wires end.
const MOST_HEARD: u32 = 1_000_000;

// ENONET, EPROTO, ENOPROTOOPT, EOPNOTSUPP, ENETDOWN, ENETUNREACH, ECONNABORTED, EHOSTDOWN, EHOSTUNREACH.
const OF_CONNECTION: [i32; 9] = [64, 71, 92, 95, 100, 101, 103, 112, 113];

// What an address begins with that is the application's: its file name follows.
const OF_APPLICATION: &str = "unix:";

#[derive(Drop)]
pub struct Sockets<R: Net + Clock + Files + Drop> {
    rt: R,
    poll: io::Result<Poll>,
    events: Events,
    listener: Option<TcpListener>,
    // Where the application comes, and whether one may.
    door: Option<Door>,
    has_door: bool,
    lines: Lines,
    // Whether peers may wait at the listener until a connection is closed.
    is_held_back: bool,
    // The moment at which the listener is tried again.
    again_at: Option<u64>,
    // How many accepts in a row were tried again at once.
    at_once: u8,
    // How many answers in a row came from the queue.
    unasked: u8,
    moments: Moments,
}

impl<R: Net + Clock + Files + Drop> Sockets<R> {
    // No socket yet, with the memory for all that can be opened, at most so many at once, and whether an application may come.
    pub fn new(alloc: Global, rt: R, most: usize, has_door: bool) -> Result<Sockets<R>, NoMemory>
        requires { most ≤ 513 }
    {
        let poll = Poll::new(&rt);
        let moments = Moments::by_the_wall(&rt);
        Ok(Sockets {
            rt,
            poll,
            events: Events::with_capacity(alloc, most + MOST_LEAVING + 3)?,
            listener: None,
            door: None,
            has_door,
            lines: Lines::new(alloc, most)?,
            is_held_back: false,
            again_at: None,
            at_once: 0,
            unasked: 0,
            moments,
        })
    }

    // Reckons from this moment on, which is now.
    pub fn keep_time(&mut self, now: u64) {
        self.moments = Moments::from(&self.rt, now);
    }

    // Listens for peers, or for the application.
    pub fn listen(&mut self, address: &str) -> Result<(), WireFault> {
        match address.strip_prefix(OF_APPLICATION) {
            Some(name) if self.has_door => self.listen_for_application(name),
            _ => self.listen_for_peers(address),
        }
    }

    // Listens at an IP address and a port. The connections that are accepted are set as the listener is.
    fn listen_for_peers(&mut self, address: &str) -> Result<(), WireFault> {
        let poll = made(&self.poll)?;
        let Ok(address) = address.parse::<SocketAddr>() else {
            return Err(WireFault::NoAddress);
        };
        let mut listener = TcpListener::bind(&self.rt, address)?;
        set_for_frames(&listener);
        poll.registry()
            .register(&mut listener, LISTENER, Interest::READABLE)?;
        self.listener = Some(listener);
        Ok(())
    }

    // Listens at a file name. One at which it listened before is gone then.
    fn listen_for_application(&mut self, name: &str) -> Result<(), WireFault> {
        let poll = made(&self.poll)?;
        let mut door = Door::open(&self.rt, name)?;
        let registered = poll
            .registry()
            .register(&mut door.listener, DOOR, Interest::READABLE);
        if let Err(error) = registered {
            door.remove(&self.rt);
            return Err(error.into());
        }
        self.remove_door();
        self.door = Some(door);
        Ok(())
    }

    // No application comes any more, and the file is gone.
    fn remove_door(&mut self)
        ensures { self.new.lines ≡ self.old.lines }
    {
        if let Some(door) = self.door.take() {
            door.remove(&self.rt);
        }
    }

    // Accepts the application, where one waits, and whether it came. While another one is there it is closed at once.
    pub fn attach(&mut self) -> bool
        ensures { result ≡ true → IsConnectionOpen self.new.lines.places.items 0 }
    {
        let Some(door) = &self.door else {
            return false;
        };
        match door.accept() {
            Ok(stream) => {
                // More may wait.
                self.lines.try_door();
                self.keep_application(stream)
            }
            Err(error) => {
                self.put_door_off(&error);
                false
            }
        }
    }

    // Keeps the application's socket, where no other one is kept.
    fn keep_application(&mut self, stream: UnixStream) -> bool
        ensures open { result ≡ true → IsConnectionOpen self.new.lines.places.items 0 }
        ensures queue { self.new.lines.queue ≡ self.old.lines.queue }
    {
        let mut stream = stream;
        if self.lines.is_attached() {
            return false;
        }
        if self.register(&mut stream).is_err() {
            return false;
        }
        self.lines.attach(stream)
    }

    // Sees to it that an application that couldn't be accepted is accepted later.
    fn put_door_off(&mut self, error: &io::Error)
        ensures again { (error_kind error.now ≡ ErrorKind.WouldBlock) ⊎ IsSome self.new.again_at }
        ensures lines { self.new.lines ≡ self.old.lines }
    {
        if error.kind() != ErrorKind::WouldBlock {
            let again_at = self.now().saturating_add(ACCEPT_AGAIN);
            self.again_at = earlier(self.again_at, Some(again_at));
        }
    }

    // Where it listens.
    pub fn address(&self) -> Option<SocketAddr> {
        self.listener.as_ref()?.local_addr().ok()
    }

    // The address of the peer of the connection of this number.
    pub fn peer(&self, number: u64) -> Option<SocketAddr> {
        self.lines.peer(number)
    }

    // Begins a connection to the peer at an IP address and a port, and answers its number, the next behind the newest.
    pub fn dial(&mut self, address: &str, newest: u64) -> Result<u64, WireFault>
        ensures { IfOk result (λ number. number ≡ newest + 1) }
    {
        let Some(number) = newest.checked_add(1) else {
            return Err(WireFault::Full);
        };
        if self.lines.is_full() {
            return Err(WireFault::Full);
        }
        let Ok(address) = address.parse::<SocketAddr>() else {
            return Err(WireFault::NoAddress);
        };
        let mut stream = TcpStream::connect(&self.rt, address)?;
        set_for_frames(&stream);
        self.register(&mut stream)?;
        if !self.lines.open(number, stream, Start::Dialled) {
            return Err(WireFault::Full);
        }
        Ok(number)
    }

    // Accepts a peer's connection, where one waits and there is room, and answers its number, the next behind the newest.
    pub fn accept(&mut self, newest: u64) -> Option<u64>
        ensures number { IfSome result (λ number. number ≡ newest + 1) }
        ensures more { IfSome result (λ _. self.new.unasked ≡ 16) }
    {
        let number = newest.checked_add(1)?;
        if self.lines.is_full() {
            self.is_held_back = true;
            return None;
        }
        match accept(self.listener.as_ref()?) {
            Ok(stream) => {
                self.at_once = 0;
                let kept = self.keep_accepted(stream, number);
                self.ask_for_more();
                kept
            }
            Err(error) => {
                self.put_off(&error);
                None
            }
        }
    }

    // Has the listener reported again where another peer waits, and the system asked at the next turn: an accept that finds
    // nobody costs ten times as much.
    fn ask_for_more(&mut self)
        ensures { self.new.unasked ≡ 16 }
    {
        self.unasked = MOST_UNASKED;
        let (Ok(poll), Some(listener)) = (&self.poll, &mut self.listener) else {
            return;
        };
        let asked = poll
            .registry()
            .reregister(listener, LISTENER, Interest::READABLE);
        if asked.is_err() {
            self.lines.try_listener();
        }
    }

    // Keeps an accepted connection. One that can't be registered is kept too, as one that is dead.
    fn keep_accepted(&mut self, stream: TcpStream, number: u64) -> Option<u64>
        ensures { IfSome result (λ kept. kept ≡ number) }
    {
        let mut stream = stream;
        let start = match self.register(&mut stream) {
            Ok(()) => Start::Accepted,
            Err(_) => Start::Dead,
        };
        if self.lines.open(number, stream, start) {
            Some(number)
        } else {
            None
        }
    }

    // Has the socket reported under the slot that it gets.
    fn register<S: Source>(&self, stream: &mut S) -> Result<(), WireFault> {
        let token = Token(self.lines.next_slot());
        made(&self.poll)?
            .registry()
            .register(stream, token, Interest::READABLE | Interest::WRITABLE)?;
        Ok(())
    }

    // Sees to it that an accept that failed is tried again: at once where the fault was the connection's, or where a
    // connection that leaves gives its place; else by time.
    fn put_off(&mut self, error: &io::Error)
        ensures { HasRoomForHappening self.old.lines.queue → (error_kind error.now ≡ ErrorKind.WouldBlock) ⊎ (StandsIn self.new.lines.queue Seen.Listener ⊎ IsSome self.new.again_at) }
    {
        if error.kind() == ErrorKind::WouldBlock {
            // Nobody waits: the next who comes is reported.
            self.at_once = 0;
            return;
        }
        let is_theirs = is_of_connection(error) && self.at_once < MOST_AT_ONCE;
        if is_theirs {
            self.at_once = self.at_once.saturating_add(1);
        }
        if is_theirs || self.lines.any_leaves() {
            if !is_theirs {
                self.lines.let_first_go();
            }
            self.lines.try_listener();
        } else {
            self.at_once = 0;
            self.again_at = Some(self.now().saturating_add(ACCEPT_AGAIN));
        }
    }

    // Takes the first happening, where none stands in the queue once one comes, at the latest until this moment. None where
    // there is none.
    pub fn next(&mut self, until: Option<u64>) -> Result<Option<Seen>, WireFault> {
        if !self.answers_unasked() {
            let wait = self.wait(until);
            self.hear(wait)?;
        }
        Ok(self.lines.take())
    }

    // Whether an answer comes from the queue, and the system isn't asked what happened: only where something stands there, and
    // so many times in a row at the most.
    fn answers_unasked(&mut self) -> bool
        ensures stands { result ≡ true → 0 < count self.old.lines.queue }
        ensures most { result ≡ true → self.new.unasked ≤ 16 }
        ensures counted { result ≡ true → self.new.unasked ≡ self.old.unasked + 1 }
        ensures asks { result ≡ false → self.new.unasked ≡ 0 }
        ensures lines { self.new.lines ≡ self.old.lines }
    {
        if self.lines.is_quiet() || self.unasked >= MOST_UNASKED {
            self.unasked = 0;
            return false;
        }
        self.unasked += 1;
        true
    }

    // Waits at most so long, and hears of all that happened.
    fn hear(&mut self, wait: Option<Duration>) -> Result<(), WireFault>
        ensures { self.new.lines.places ≡ self.old.lines.places }
    {
        match &mut self.poll {
            Ok(poll) => poll.poll(&mut self.events, wait)?,
            Err(error) => return Err(WireFault::System(*error)),
        }
        self.lines.hear_all(&self.events);
        self.do_what_is_due();
        Ok(())
    }

    // Who waits to be accepted is tried again.
    fn try_again(&mut self)
        ensures stands { HasRoomForHappening self.old.lines.queue → StandsIn self.new.lines.queue Seen.Listener }
        ensures places { self.new.lines.places ≡ self.old.lines.places }
    {
        self.again_at = None;
        self.lines.try_listener();
        if self.door.is_some() {
            self.lines.try_door();
        }
    }

    // What comes by time: the listener is tried again, and connections that leave have to be gone.
    fn do_what_is_due(&mut self)
        ensures { self.new.lines.places ≡ self.old.lines.places }
    {
        if self.again_at.is_none() && !self.lines.any_leaves() {
            return;
        }
        let now = self.now();
        if self.again_at.is_some_and(|at| at <= now) {
            self.try_again();
        }
        self.lines.let_go_by(now);
    }

    // Reads from the connection of this number. Where that gave octets, more may wait.
    pub fn read(&mut self, number: u64, into: &mut [u8]) -> ReadAnswer
        ensures length { length into.new ≡ length into.old }
        ensures fits { (n : ℕ) → result ≡ ReadAnswer.Some n → (1 ≤ n) × (n ≤ length into.old) }
        ensures again { (n : ℕ) → result ≡ ReadAnswer.Some n → StandsIn self.new.lines.queue (Seen.Readable number) }
    {
        // There always is.
        if !self.lines.has_room() {
            return ReadAnswer::NotNow;
        }
        match self.lines.read(number, into) {
            Ok(0) => ReadAnswer::End,
            Ok(count) => {
                self.lines.tell_readable(number);
                ReadAnswer::Some(count)
            }
            Err(error) if error.kind() == ErrorKind::WouldBlock => ReadAnswer::NotNow,
            Err(error) if error.kind() == ErrorKind::Interrupted => {
                self.lines.tell_readable(number);
                ReadAnswer::NotNow
            }
            Err(_) => ReadAnswer::Failed,
        }
    }

    // Writes to the connection of this number. One that isn't made yet has no room. That there is room is told then.
    pub fn write(&mut self, number: u64, piece: &[u8]) -> WriteAnswer
        ensures fits { (n : ℕ) → result ≡ WriteAnswer.Some n → (1 ≤ n) × (n ≤ length piece.now) }
        ensures told { result ≡ WriteAnswer.NotNow → 0 < length piece.now → HasRoomForHappening self.old.lines.queue → AwaitsRoom self.new.lines number ⊎ StandsIn self.new.lines.queue (Seen.Writable number) }
    {
        match self.lines.write(number, piece) {
            Ok(0) => WriteAnswer::NotNow,
            Ok(count) => WriteAnswer::Some(count),
            Err(error) if has_no_room(error.kind()) => WriteAnswer::NotNow,
            Err(error) if error.kind() == ErrorKind::Interrupted => {
                self.lines.tell_writable(number);
                WriteAnswer::NotNow
            }
            Err(_) => WriteAnswer::Failed,
        }
    }

    // Closes the connection of this number, and takes its happenings out of the queue. Nobody is held back then.
    pub fn close(&mut self, number: u64)
        ensures closed { IsClosed self.new.lines.places.items number }
        ensures held_back { self.old.is_held_back ≡ true → HasRoomForHappening self.old.lines.queue → StandsIn self.new.lines.queue Seen.Listener }
    {
        let now = self.now();
        self.lines.close(number, now);
        if self.is_held_back || self.again_at.is_some() {
            self.is_held_back = false;
            self.try_again();
        }
    }

    // Closes what is open, and waits at most so many milliseconds until the peers of all that was closed have closed too.
    pub fn finish(&mut self, most: u64)
        ensures { self.new.lines.places.items ≡ [] }
    {
        let begun = self.now();
        let last = begun.saturating_add(most);
        self.listener = None;
        self.remove_door();
        self.lines.close_all(begun);
        for _ in 0..MOST_HEARD {
            let left = last.saturating_sub(self.now());
            if left == 0 || !self.lines.any_leaves() {
                return;
            }
            if self.hear(Some(Duration::from_millis(left))).is_err() {
                return;
            }
        }
    }

    // How long to wait for a happening: not at all where one stands in the queue, else until this moment or the first of what is due here.
    fn wait(&mut self, until: Option<u64>) -> Option<Duration>
        ensures at_once { 0 < count self.old.lines.queue → IsSomeAnd result (λ wait. as_nanos wait ≡ 0) }
        ensures exact { count self.old.lines.queue ≡ 0 → WaitsUntil (earlier until (earlier self.old.again_at (first_until self.old.lines.leaving.waits))) (wires_moment self.new.moments) result }
        ensures rest { self.new ≡ record self.old { moments = self.new.moments } }
    {
        if !self.lines.is_quiet() {
            return Some(Duration::ZERO);
        }
        let due = earlier(self.again_at, self.lines.first_to_go());
        let until = earlier(until, due)?;
        Some(Duration::from_millis(until.saturating_sub(self.now())))
    }

    // The moment that it is now.
    fn now(&mut self) -> u64
        ensures moment { result ≡ wires_moment self.new.moments }
        ensures rest { self.new ≡ record self.old { moments = self.new.moments } }
    {
        self.moments.now(&self.rt)
    }
}

// The poll, where the system made one.
fn made(poll: &io::Result<Poll>) -> Result<&Poll, WireFault> {
    match poll {
        Ok(poll) => Ok(poll),
        Err(error) => Err(WireFault::System(*error)),
    }
}

// The earlier of two moments, where they are.
fn earlier(one: Option<u64>, other: Option<u64>) -> Option<u64>
    ensures { result ≡ earlier one other }
{
    match (one, other) {
        (Some(one), Some(other)) => Some(one.min(other)),
        (one, None) => one,
        (None, other) => other,
    }
}

// Whether a write that failed so may be tried later: there is no room, or the connection isn't made yet.
fn has_no_room(kind: ErrorKind) -> bool
    ensures { result ≡ true → (kind ≡ ErrorKind.WouldBlock) ⊎ (kind ≡ ErrorKind.NotConnected) }
{
    kind == ErrorKind::WouldBlock || kind == ErrorKind::NotConnected
}

// Whether an accept failed by a fault of the connection that was first in line, which is gone with it: these are passed on
// as the answer of the accept, as accept(2) says.
fn is_of_connection(error: &io::Error) -> bool {
    match error.raw_os_error() {
        Some(code) => OF_CONNECTION.contains(&code),
        None => false,
    }
}
