//! What was printed as given is written to the other side.

ghost use Rattle.std.specs.Prelude.{◌≡◌, false};
ghost use Rattle.relay_loop.specs.Sending.{Sends};

use crate::way::Way;
use link_trait::{Conn, WriteAnswer};
use outside::Outside;

/// How a writing went.
#[derive(Clone, Copy, PartialEq, Eq)]
pub(crate) enum Flow {
    /// Nothing waits any more.
    Going,
    /// There is no room.
    PutOff,
    /// A write failed.
    Failing,
}

/// What was printed is written until nothing waits, or there is no room, or a write fails.
pub(crate) fn send<O: Outside>(way: &mut Way, to: Conn, outside: &mut O) -> Flow
    ensures { Sends false result to.0 way.old way.new (O.told outside.old) (O.told outside.new) }
{
    if way.lost {
        return Flow::Going;
    }
    while !way.printed.is_empty() {
        match outside.send(to, way.printed.as_slice()) {
            WriteAnswer::Some(count) => way.wrote(count),
            WriteAnswer::NotNow => return Flow::PutOff,
            WriteAnswer::Failed => return Flow::Failing,
        }
    }
    Flow::Going
}
