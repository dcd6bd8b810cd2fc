//! A session, and what is asked of it.

ghost use Rattle.std.specs.Prelude.{◌≡◌, ◌≤◌, drop, length, true, IfOk};
ghost use Rattle.er_end_model.specs.Steps.{earlier_of_moments as first_moment};
ghost use Rattle.er_end.specs.KeptEnds.{deadline_of};
ghost use Rattle.loop_model.specs.Sessions.{is_released, owes_nothing, made};
ghost use Rattle.loop_model.specs.Visits.{wakes};
ghost use Rattle.loop_model.specs.Loops.{begun, begun_dial};
ghost use Rattle.loop_session.specs.Keeping.{kept_ends};

use crate::gone::Gone;
use bytes::BytesMut;
use er_base::NoMemory;
use er_end::End;
use er_users::SafeUser;
use std::alloc::Global;
use std::marker::Model;

/// The session of one connection: its end, its user until that heard of the release, and the octets that wait to be written.
#[derive(Drop)]
pub struct Session<U: SafeUser> {
    pub(crate) number: u64,
    pub(crate) user: Option<U>,
    pub(crate) gone: Option<Gone<U>>,
    pub(crate) output: BytesMut,
    pub(crate) broken: bool,
    pub(crate) closing: Option<u64>,
    // It was dialled, and the wires didn't tell of it yet.
    pub(crate) unmade: bool,
    // On the heap: eight thousand octets, which would be copied each time that a session is moved.
    pub(crate) end: Box<End>,
}

impl<U: SafeUser> Model for Session<U> {
    ghost use Rattle.std.specs.Prelude.{option_map};
    ghost use Rattle.er_end.specs.KeptEnds.{KEnd};
    ghost use Rattle.loop_model.specs.Sessions.{Session as LoopSession};
    ghost use Rattle.loop_session.specs.Farewells.{told_then};

    ghost Value = { LoopSession KEnd };

    ghost view = { λ s. record { number = s.number; end = s.end.value; mind = option_map U.mind s.user; told = told_then (option_map (λ g. U.mind g.user) s.gone); output = s.output.items; broken = s.broken; closing = s.closing; unmade = s.unmade } };
}

// The first of two moments.
fn first_of(one: Option<u64>, other: Option<u64>) -> Option<u64>
    ensures { result ≡ first_moment one other }
{
    let Some(one) = one else {
        return other;
    };
    let Some(other) = other else {
        return Some(one);
    };
    Some(one.min(other))
}

impl<U: SafeUser> Session<U> {
    /// The session of a connection that was opened, with this end and this user.
    pub fn begin(alloc: Global, number: u64, end: Box<End>, user: U) -> Session<U>
        ensures { result ≡ begun number end.value (U.mind user) }
    {
        Session {
            number,
            user: Some(user),
            gone: None,
            output: BytesMut::new(alloc),
            broken: false,
            closing: None,
            unmade: false,
            end,
        }
    }

    /// The session of a connection that was dialled, and of which the wires told nothing yet.
    pub fn begin_dial(alloc: Global, number: u64, end: Box<End>, user: U) -> Session<U>
        ensures { result ≡ begun_dial number end.value (U.mind user) }
    {
        let mut session = Session::begin(alloc, number, end, user);
        session.unmade = true;
        session
    }

    /// Its end, where it stands: the session is over.
    pub fn into_end(self) -> Box<End>
        ensures { result.value ≡ self.end }
    {
        self.end
    }

    /// The number of its connection.
    pub fn number(&self) -> u64
        ensures { result ≡ self.now.number }
    {
        self.number
    }

    /// The octets that wait to be written.
    pub fn output(&self) -> &[u8]
        ensures { result.now ≡ self.now.output }
    {
        self.output.as_slice()
    }

    /// Whether the connection is to be closed as soon as the events at hand are done, and nothing more is to be written to it.
    pub fn is_broken(&self) -> bool
        ensures { result ≡ self.now.broken }
    {
        self.broken
    }

    /// Whether its end was released.
    pub fn is_released(&self) -> bool
        ensures { result ≡ is_released kept_ends self.now }
    {
        self.end.released().is_some()
    }

    /// Whether its end was released and nothing is owed to its peer: nothing waits to be written, or its connection was never made.
    pub fn owes_nothing(&self) -> bool
        ensures { result ≡ owes_nothing kept_ends self.now }
    {
        if !self.is_released() {
            return false;
        }
        if self.output.is_empty() {
            return true;
        }
        self.unmade
    }

    /// The wires told of its connection.
    pub fn note_made(&mut self)
        ensures { self.new ≡ made self.old }
    {
        self.unmade = false;
    }

    /// The moment at which its end wants a tick.
    pub fn deadline(&self) -> Option<u64>
        ensures { result ≡ deadline_of self.now.end }
    {
        self.end.deadline()
    }

    /// The moment at which its connection is closed at the latest, once the end was released.
    pub fn closing(&self) -> Option<u64>
        ensures { result ≡ self.now.closing }
    {
        self.closing
    }

    /// The moment at which the session is to be visited next: the first of the deadline of its end and, once that was released, its
    /// closing moment.
    pub fn wakes(&self) -> Option<u64>
        ensures { result ≡ wakes kept_ends self.now }
    {
        first_of(self.end.deadline(), self.closing)
    }

    /// So many of the octets that wait were written.
    pub fn wrote(&mut self, count: usize)
        requires { count ≤ length self.old.output }
        ensures { self.new ≡ record self.old { output = drop count self.old.output } }
    {
        self.output.advance(count);
    }

    /// The connection is to be closed as soon as the events at hand are done.
    pub fn break_off(&mut self)
        ensures { self.new ≡ record self.old { broken = true } }
    {
        self.broken = true;
    }
}
