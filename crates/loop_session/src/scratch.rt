//! Room that is used again and again: the lines of an event, and the replies of a user.

use er_base::NoMemory;
use er_users::Replies;
use std::alloc::Global;

/// Room that is used again and again: the lines of an event, and the replies of a user.
#[derive(Drop)]
pub struct Scratch {
    pub(crate) line: Vec<u8>,
    pub(crate) replies: Replies,
}

impl Scratch {
    /// Room for the replies; the lines take theirs as they come.
    pub fn new(alloc: Global) -> Result<Scratch, NoMemory> {
        Ok(Scratch {
            line: Vec::new(alloc),
            replies: Replies::new(alloc)?,
        })
    }
}
