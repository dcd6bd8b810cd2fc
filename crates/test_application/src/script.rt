//! What happens at wires in memory, act by act.

use crate::train::Train;
use er_base::{NoMemory, Octets};
use key_store::KeyStore;
use link_memory::Act;
use std::alloc::Global;

/// The acts of wires. Connections are counted as they are accepted or dialled, applications among them.
#[derive(Drop)]
pub(crate) struct Script {
    alloc: Global,
    pub(crate) acts: Vec<Act>,
}

impl Script {
    /// Nobody comes yet.
    pub(crate) fn new(alloc: Global) -> Script {
        Script {
            alloc,
            acts: Vec::new(alloc),
        }
    }

    /// A train or an application comes.
    pub(crate) fn accept(&mut self) -> Result<(), NoMemory> {
        Ok(self.acts.push(Act::Accept)?)
    }

    /// It says this.
    pub(crate) fn bring(&mut self, conn: u64, octets: &[u8]) -> Result<(), NoMemory> {
        let octets = Octets::new(Vec::from_slice(self.alloc, octets)?);
        Ok(self.acts.push(Act::Bring { conn, octets })?)
    }

    /// It has room for so many octets more.
    pub(crate) fn room(&mut self, conn: u64, room: usize) -> Result<(), NoMemory> {
        Ok(self.acts.push(Act::Room { conn, room })?)
    }

    /// It goes.
    pub(crate) fn shut(&mut self, conn: u64) -> Result<(), NoMemory> {
        Ok(self.acts.push(Act::Shut { conn })?)
    }

    /// Nothing happens, so many times.
    pub(crate) fn wait(&mut self, times: u8) -> Result<(), NoMemory> {
        for _ in 0..times {
            self.acts.push(Act::Quiet)?;
        }
        Ok(())
    }

    /// A train at this connection says what it has to say, until it waits for somebody else. Its messages are taken or not.
    pub(crate) fn talk(
        &mut self,
        conn: u64,
        train: &mut Train,
        keys: &KeyStore,
        takes: bool,
    ) -> Result<(), NoMemory> {
        for _ in 0..10 {
            let piece = train.speak(keys, takes);
            if piece.is_empty() {
                return Ok(());
            }
            self.bring(conn, piece.as_slice())?;
        }
        Ok(())
    }
}
