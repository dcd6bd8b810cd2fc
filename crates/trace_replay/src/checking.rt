//! The check of a recording.

ghost use Rattle.safety_automaton.specs.Keys.{key_at};
ghost use Rattle.trace_model.specs.Recordings.{IsChecked};

use crate::comparing::verdict_on;
use crate::run::replay;
use er_trace::Trace;
use safety_automaton::KeyFinder;
use std::alloc::Global;
use trace_model::{CheckVerdict, ReplayFault};

/// Holds a recording, line by line and octet by octet, against what a replay of its trace prints. `file` are its octets, and `trace` is what they
/// spell, a last line without LF left out.
///
/// An event that isn't taken is told before any difference.
pub fn check<K: KeyFinder>(
    alloc: Global,
    keys: &K,
    file: &[u8],
    trace: &Trace,
) -> Result<CheckVerdict, ReplayFault>
    ensures { IsChecked trace.now.settings (key_at (K.entries keys.now)) trace.now.entries file.now result }
{
    let mut printed = Vec::new(alloc);
    replay(alloc, keys, trace, &mut printed)?;
    Ok(verdict_on(file, printed.as_slice()))
}
