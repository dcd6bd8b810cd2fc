//! The octets that wait to be written.

ghost use Rattle.std.specs.Prelude.{◌≡◌, ◌+◌, length, not, nat_lt, if◌then◌else◌, ◌++◌, OnErr};
ghost use Rattle.loop_model.specs.Sessions.{most_output};
ghost use Rattle.loop_session.specs.Giving.{Joins};

use bytes::BytesMut;
use er_base::NoMemory;

/// The most octets that may wait to be written.
pub const MOST_OUTPUT: usize = 262_144;

/// Octets join those that wait, where all together are at most [`MOST_OUTPUT`]: whether they did.
pub fn join_waiting(output: &mut BytesMut, octets: &[u8]) -> Result<bool, NoMemory>
    ensures { Joins result output.old.items output.new.items octets.now }
{
    let waiting = output.len();
    if waiting > MOST_OUTPUT || octets.len() > MOST_OUTPUT - waiting {
        return Ok(false);
    }
    output.extend_from_slice(octets)?;
    Ok(true)
}
