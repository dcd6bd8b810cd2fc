//! The buffers that a loop reads into and writes from.

use er_base::NoMemory;
use er_end::End;
use er_users::SafeUser;
use loop_session::{Scratch, Session};
use std::alloc::Global;

/// The most octets that one read asks for.
pub(crate) const MOST_READ: usize = 4_096;

/// What a loop uses again and again: the room that a read fills, that of a session's events, and the ends of sessions that are over, whose places the
/// next ones take.
#[derive(Drop)]
pub struct Workspace {
    // Of a read only the octets that it gave are looked at, so those of an earlier one may stand behind them.
    pub(crate) read: [u8; MOST_READ],
    /// What the events of a session take.
    pub scratch: Scratch,
    ends: Vec<Box<End>>,
}

impl Workspace {
    /// Room for one read and for the events; so many ends that are over are kept at the most.
    pub fn new(alloc: Global, most_ends: usize) -> Result<Workspace, NoMemory> {
        Ok(Workspace {
            read: [0; MOST_READ],
            scratch: Scratch::new(alloc)?,
            ends: Vec::with_capacity(alloc, most_ends)?,
        })
    }

    /// Where a session is over, the place of its end is kept for one that comes, unless as many are kept already as may be.
    pub fn keep_place<U: SafeUser>(&mut self, over: Option<Session<U>>) {
        let Some(session) = over else {
            return;
        };
        if self.ends.len() < self.ends.capacity() {
            // The room was reserved.
            let _kept = self.ends.push(session.into_end());
        }
    }

    /// A place on the heap that was kept, with the end of the session that is over, which goes where another takes its place.
    ///
    /// Ends come and go with connections. Were each of these places freed and asked for again, others would come to stand in them in between, and memory
    /// would grow.
    pub fn take_place(&mut self) -> Option<Box<End>> {
        self.ends.pop()
    }
}
