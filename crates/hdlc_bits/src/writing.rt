//! Frames written.

ghost use Rattle.std.specs.Prelude.{◌≡◌, ◌≤◌, ◌<◌, [], ◌∷◌, length};
ghost use Rattle.bit_lists.specs.LowestFirst.{low_bits};
ghost use Rattle.hdlc_fcs.specs.FrameCheck.{sent_bits};
ghost use Rattle.hdlc_bits.specs.Rooms.{HasRoomForBits, AppendsBits, bit_of};
ghost use Rattle.hdlc_bits.specs.Stuffing.{flag_bits, stuffed_behind, ones_left, spelling_in_bits};

use crate::room::BitRoom;
use hdlc_fcs::check_octets;

/// The octet of a flag: a zero, six ones, a zero.
const FLAG: u8 = 0x7e;

/// Behind so many ones and one more a zero is inserted.
const ONES_BEFORE_THE_FIFTH: u32 = 4;

/// Appends a frame: a flag, the bits of the address, the body and their check sequence with a zero inserted behind
/// each five ones, a flag (ISO/IEC 13239, synchronous transmission with bit transparency).
pub fn put_bits(address: u8, body: &[u8], out: &mut BitRoom)
    requires some { 1 ≤ length body.now }
    requires fits { length body.now ≤ 1028 }
    requires room { HasRoomForBits out.old (length (spelling_in_bits address body.now)) }
    ensures { AppendsBits out.old out.new (spelling_in_bits address body.now) }
{
    let check = check_octets(address, body);
    put_flag(out);
    let ones = put_stuffed(&[address], 0, out);
    let ones = put_stuffed(body, ones, out);
    let _ = put_stuffed(&check, ones, out);
    put_flag(out);
}

// Appends a flag.
fn put_flag(out: &mut BitRoom)
    requires { HasRoomForBits out.old 8 }
    ensures { AppendsBits out.old out.new flag_bits }
{
    for place in 0..8u32 {
        out.put(FLAG >> place & 1 == 1);
    }
}

// Appends the bits of octets behind so many ones, stuffed, and answers how many ones stand at their end.
fn put_stuffed(content: &[u8], ones: u32, out: &mut BitRoom) -> u32
    requires few { ones < 5 }
    requires room { HasRoomForBits out.old (length (stuffed_behind ones (sent_bits content.now))) }
    ensures appends { AppendsBits out.old out.new (stuffed_behind ones (sent_bits content.now)) }
    ensures left { result ≡ ones_left ones (sent_bits content.now) }
    ensures few { result < 5 }
{
    let mut ones = ones;
    for octet in content {
        ones = put_stuffed_octet(*octet, ones, out);
    }
    ones
}

// The same of one octet.
fn put_stuffed_octet(octet: u8, ones: u32, out: &mut BitRoom) -> u32
    requires few { ones < 5 }
    requires room { HasRoomForBits out.old (length (stuffed_behind ones (low_bits 8 octet))) }
    ensures appends { AppendsBits out.old out.new (stuffed_behind ones (low_bits 8 octet)) }
    ensures left { result ≡ ones_left ones (low_bits 8 octet) }
    ensures few { result < 5 }
{
    let mut ones = ones;
    for place in 0..8u32 {
        ones = put_stuffed_bit(octet >> place & 1 == 1, ones, out);
    }
    ones
}

// The same of one bit.
fn put_stuffed_bit(one: bool, ones: u32, out: &mut BitRoom) -> u32
    requires few { ones < 5 }
    requires room { HasRoomForBits out.old (length (stuffed_behind ones (bit_of one ∷ []))) }
    ensures appends { AppendsBits out.old out.new (stuffed_behind ones (bit_of one ∷ [])) }
    ensures left { result ≡ ones_left ones (bit_of one ∷ []) }
    ensures few { result < 5 }
{
    out.put(one);
    if !one {
        return 0;
    }
    if ones == ONES_BEFORE_THE_FIFTH {
        out.put(false);
        return 0;
    }
    ones + 1
}
