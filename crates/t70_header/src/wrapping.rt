//! The header in front of a TPDU.

ghost use Rattle.std.specs.Prelude.{◌+◌, [], length};
ghost use Rattle.er_base.specs.Stored.{HasRoom, Appends};
ghost use Rattle.t70_header.specs.Blocks.{last_block};

use er_base::Room;

/// Appends a TPDU as one block: the header 01 00 and the octets of the TPDU.
pub fn wrap(tpdu: &[u8], out: &mut Room)
    requires { HasRoom out.old (length tpdu.now + 2) }
    ensures { Appends out.old out.new (last_block tpdu.now) }
{
    begin_block(out);
    out.put(tpdu);
}

/// Appends the header of one block, 01 00: what is appended next is its TPDU, which is written where it goes.
pub fn begin_block(out: &mut Room)
    requires { HasRoom out.old 2 }
    ensures { Appends out.old out.new (last_block []) }
{
    out.put(&[0x01, 0x00]);
}
