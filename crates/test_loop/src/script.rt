//! What happens at wires in memory, act by act.

use crate::serving::bring;
use crate::train::Train;
use er_base::NoMemory;
use key_store::KeyStore;
use link_memory::Act;
use std::alloc::Global;

/// The acts of wires, and the calls of the wires that they come to: one to listen, one for each act that is done, and with an act that
/// brings a train's octets one read, and one write of the answer where there is one.
#[derive(Drop)]
pub(crate) struct Script {
    pub(crate) acts: Vec<Act>,
    pub(crate) calls: u64,
    /// The number of the call that is to fail; there is no call 0.
    pub(crate) failing: u64,
}

impl Script {
    /// Nobody is accepted yet.
    pub(crate) fn new(alloc: Global) -> Script {
        Script {
            acts: Vec::new(alloc),
            calls: 1,
            failing: 0,
        }
    }

    fn act(&mut self, act: Act, calls: u64) -> Result<(), NoMemory> {
        self.acts.push(act)?;
        self.calls = self.calls.saturating_add(calls);
        Ok(())
    }

    /// A connection is accepted, and nothing comes from it yet.
    pub(crate) fn accept(&mut self) -> Result<(), NoMemory> {
        self.act(Act::Accept, 1)
    }

    /// The peer of a connection closes, and the loop reads that.
    pub(crate) fn shut(&mut self, conn: u64) -> Result<(), NoMemory> {
        self.act(Act::Shut { conn }, 2)
    }

    /// The peer of a connection takes nothing any more.
    pub(crate) fn stop_taking(&mut self, conn: u64) -> Result<(), NoMemory> {
        self.act(Act::Room { conn, room: 0 }, 1)
    }

    /// Octets come late to a connection that is closed.
    pub(crate) fn come_late(
        &mut self,
        alloc: Global,
        conn: u64,
        octets: &[u8],
    ) -> Result<(), NoMemory> {
        self.act(bring(alloc, conn, octets)?, 1)
    }

    /// The train of this place sends what it has to send, if anything, over the connection of that place.
    pub(crate) fn speak(
        &mut self,
        alloc: Global,
        keys: &KeyStore,
        place: u8,
        trains: &mut Vec<Train>,
    ) -> Result<(), NoMemory> {
        let Some(train) = trains.get_mut(usize::from(place)) else {
            return Ok(());
        };
        let (piece, is_answered) = train.speak(keys);
        if piece.is_empty() {
            return Ok(());
        }
        let conn = u64::from(place) + 1;
        let calls = if is_answered { 3 } else { 2 };
        self.act(bring(alloc, conn, piece.as_slice())?, calls)
    }

    /// The train of this place leaves with this sub-reason.
    pub(crate) fn leave(
        &mut self,
        alloc: Global,
        keys: &KeyStore,
        place: u8,
        trains: &mut Vec<Train>,
        sub: u8,
    ) -> Result<(), NoMemory> {
        if let Some(train) = trains.get_mut(usize::from(place)) {
            train.leave(sub);
        }
        self.speak(alloc, keys, place, trains)
    }

    /// The last call so far is to fail.
    pub(crate) fn fail_here(&mut self) {
        self.failing = self.calls;
    }
}
