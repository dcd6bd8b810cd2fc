//! A TPDU written as octets.

ghost use Rattle.std.specs.Prelude.{◌≡◌, ◌++◌, [], ◌∷◌, length};
ghost use Rattle.er_base.specs.Octets.{two};
ghost use Rattle.er_base.specs.Stored.{HasRoom, Appends};
ghost use Rattle.x224_tpdu.specs.Spellings.{pdu_of, IsSize, IsWritable};
ghost use Rattle.x224_tpdu.specs.Writing.{size_code, written_octets};

use crate::parameters::SIZE;
use crate::tpdu::Tpdu;
use er_base::{Room, two_of};

/// Appends the spelling of a TPDU that isn't ER: CR and CC with the TPDU size as their one parameter,
/// and the others without parameters. [`crate::read`] gives the same TPDU back.
pub fn write_into(tpdu: &Tpdu, out: &mut Room)
    requires value { IsWritable (pdu_of tpdu.now) }
    requires room { HasRoom out.old (length (written_octets (pdu_of tpdu.now))) }
    ensures { Appends out.old out.new (written_octets (pdu_of tpdu.now)) }
{
    match *tpdu {
        Tpdu::Cr {
            credit,
            dst,
            src,
            size,
            user,
        } => {
            put_connection(0xE0 + credit, dst, src, size, out);
            out.put(user);
        }
        Tpdu::Cc {
            credit,
            dst,
            src,
            size,
            user,
        } => {
            put_connection(0xD0 + credit, dst, src, size, out);
            out.put(user);
        }
        Tpdu::Dr {
            dst,
            src,
            reason,
            user,
        } => {
            let [dst_high, dst_low] = two_of(dst);
            let [src_high, src_low] = two_of(src);
            out.put(&[6, 0x80, dst_high, dst_low, src_high, src_low, reason]);
            out.put(user);
        }
        Tpdu::Dc { dst, src } => {
            let [dst_high, dst_low] = two_of(dst);
            let [src_high, src_low] = two_of(src);
            out.put(&[5, 0xC0, dst_high, dst_low, src_high, src_low]);
        }
        Tpdu::Dt {
            dst,
            last,
            number,
            user,
        } => {
            let [dst_high, dst_low] = two_of(dst);
            let octet = if last { 0x80 + number } else { number };
            out.put(&[4, 0xF0, dst_high, dst_low, octet]);
            out.put(user);
        }
        Tpdu::Ak {
            credit,
            dst,
            number,
        } => {
            let [dst_high, dst_low] = two_of(dst);
            out.put(&[4, 0x60 + credit, dst_high, dst_low, number]);
        }
        Tpdu::Er { .. } => unreachable!(),
    }
}

// The header of CR or CC, whose code this is.
fn put_connection(code: u8, dst: u16, src: u16, size: u16, out: &mut Room)
    requires size { IsSize size }
    requires room { HasRoom out.old 10 }
    ensures { Appends out.old out.new (9 ∷ code ∷ two dst ++ two src ++ 0x20 ∷ 0xC0 ∷ 1 ∷ size_code size ∷ []) }
{
    let [dst_high, dst_low] = two_of(dst);
    let [src_high, src_low] = two_of(src);
    out.put(&[9, code, dst_high, dst_low, src_high, src_low]);
    out.put(&[0x20, SIZE, 1, octet_of(size)]);
}

// The octet that names a TPDU size.
fn octet_of(size: u16) -> u8
    requires { IsSize size }
    ensures { result ≡ size_code size }
{
    match size {
        128 => 0x07,
        256 => 0x08,
        512 => 0x09,
        1_024 => 0x0A,
        2_048 => 0x0B,
        4_096 => 0x0C,
        _ => 0x0D,
    }
}
