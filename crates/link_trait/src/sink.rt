//! Octets that are written one piece after another.

ghost use Rattle.std.specs.Prelude.{ℕ, ◌-◌, ◌^◌, ◌<◌, ◌≤◌, List, Option, Some, None, length, OnOk, OnErr};
ghost use Rattle.link_trait.specs.Outside.{Grew, GrewPart, HasCause};
ghost use Rattle.link_trait.specs.States.{SinkState};

/// A write or another call of an outside object failed, and its count of faults rose in that call.
#[derive(Clone, Copy, Debug, PartialEq, Eq)]
pub struct Failed;

/// A sink, which takes octets.
///
/// What it was given is an optional meaning: a sink in memory tells it, a real one doesn't. One that
/// tells nothing never begins to tell, and it may cease to tell. Its faults are counted, up to
/// 2^64 - 1, and the count never falls.
pub trait Sink {
    // What it holds, and how often it failed.
    ghost state: { Self → SinkState };

    /// Writes the piece, which isn't empty, behind what was written before.
    ///
    /// Where it fails, a beginning of the piece may have been written.
    fn write(&mut self, piece: &[u8]) -> Result<(), Failed>
        requires { 0 < length piece.now }
        ensures ok { OnOk result (Grew (state self.old).held (state self.new).held piece.now) }
        ensures err { OnErr result (GrewPart (state self.old).held (state self.new).held piece.now) }
        ensures cause { HasCause (state self.old).faults (state self.new).faults result }
        ensures most { (state self.new).faults ≤ 2 ^ 64 - 1 };
}
