//! The buffers that a relay reads into and writes from.

ghost use Rattle.std.specs.Prelude.{◌≡◌, []};

use std::alloc::Global;

/// The most octets that one read asks for.
pub(crate) const MOST_READ: usize = 4_096;

/// What the visits of connections use again and again.
#[derive(Drop)]
pub(crate) struct Workspace {
    pub(crate) alloc: Global,
    // Of a read only the octets that it gave are looked at, so those of an earlier one may stand behind them.
    pub(crate) read: [u8; MOST_READ],
    // The lines that are written before what they tell is done.
    pub(crate) lines: Vec<u8>,
}

impl Workspace {
    /// No line waits.
    pub(crate) fn new(alloc: Global) -> Workspace
        ensures { result.lines.items ≡ [] }
    {
        Workspace {
            alloc,
            read: [0; MOST_READ],
            lines: Vec::new(alloc),
        }
    }
}
