//! Printed lines are written.

ghost use Rattle.std.specs.Prelude.{◌≡◌, [], OnOk, IfErr};
ghost use Rattle.outside.specs.Doings.{Did};
ghost use Rattle.outside.specs.Scripts.{printing};
ghost use Rattle.relay_loop.specs.RelayDeeds.{BreaksBehind};

use crate::fault::RelayFault;
use link_trait::Failed;
use outside::Outside;

/// Writes the lines that wait; where there are none, nothing is asked of the sink.
pub(crate) fn write_lines<O: Outside>(
    lines: &mut Vec<u8>,
    outside: &mut O,
) -> Result<(), RelayFault>
    ensures told { OnOk result (Did (O.told outside.old) (O.told outside.new) (printing lines.old.items)) }
    ensures none { OnOk result (lines.new.items ≡ []) }
    ensures broke { IfErr result (λ fault. BreaksBehind fault lines.old.items (O.told outside.old) (O.told outside.new) []) }
{
    if lines.as_slice().is_empty() {
        return Ok(());
    }
    match outside.write(lines.as_slice()) {
        Ok(()) => {
            lines.clear();
            Ok(())
        }
        Err(Failed) => Err(RelayFault::Sink),
    }
}
