//! Why a drill stops at a step.

use er_world::WorldFault;

/// Why a drill stops at a step.
#[derive(Clone, Copy)]
pub enum Halt {
    /// The step isn't done.
    Fault(WorldFault),
    /// A write of its lines failed.
    Sink,
}
