//! Frames written.

ghost use Rattle.std.specs.Prelude.{◌≡◌, ◌+◌, ◌≤◌, [], ◌∷◌, ◌++◌, length};
ghost use Rattle.arrayvec.specs.ArrayVec.{array_vec_len};
ghost use Rattle.hdlc_frames.specs.Framing.{flag};
ghost use Rattle.hdlc_frames.specs.Spelling.{escaped_octet, escaped, spelling};

use crate::transparency::{ESCAPE, ESCAPE_BIT, FLAG, before_flag_or_escape};
use arrayvec::ArrayVec;
use er_base::Room;
use hdlc_fcs::check_octets_of_fields;

/// The most octets that stand before or behind the information field: a flag, an address and two octets of control, each escaped.
const MOST_AROUND: usize = 7;

/// Appends a frame: a flag, the address, the body and their check sequence with flags and escapes escaped,
/// a flag (ISO/IEC 13239, start/stop transmission with octet transparency).
pub fn put_frame(address: u8, body: &[u8], out: &mut Room)
    requires some { 1 ≤ length body.now }
    requires fits { length body.now ≤ 1028 }
    requires room { length out.old.items + length (spelling address body.now) ≤ out.old.capacity }
    ensures items { out.new.items ≡ out.old.items ++ spelling address body.now }
    ensures capacity { out.new.capacity ≡ out.old.capacity }
{
    let (first, others) = body.split_at(1);
    put_fields(address, first, others, out);
}

/// The same of a control field, of one or two octets, and an information field that stand apart and are the body together: the information
/// is copied once, to where it is written.
pub fn put_fields(address: u8, control: &[u8], information: &[u8], out: &mut Room)
    requires some { 1 ≤ length control.now }
    requires few { length control.now ≤ 2 }
    requires fits { length control.now + length information.now ≤ 1028 }
    requires room { length out.old.items + length (spelling address (control.now ++ information.now)) ≤ out.old.capacity }
    ensures items { out.new.items ≡ out.old.items ++ spelling address (control.now ++ information.now) }
    ensures capacity { out.new.capacity ≡ out.old.capacity }
{
    let check = check_octets_of_fields(address, control, information);
    out.put(opening(address, control).as_slice());
    put_escaped(information, out);
    out.put(closing(check).as_slice());
}

// What stands before the information field: a flag, and the address and the control field, escaped.
#[tactic(auto, unfolding(crate::specs::Spelling::escaped))]
fn opening(address: u8, control: &[u8]) -> ArrayVec<u8, MOST_AROUND>
    requires some { 1 ≤ length control.now }
    requires few { length control.now ≤ 2 }
    ensures { result.items ≡ flag ∷ escaped (address ∷ control.now) }
{
    let mut octets = ArrayVec::new();
    octets.push(FLAG);
    push_escaped(address, &mut octets);
    match control {
        [only] => push_escaped(*only, &mut octets),
        [first, second] => {
            push_escaped(*first, &mut octets);
            push_escaped(*second, &mut octets);
        }
        _ => {}
    }
    octets
}

// What stands behind it: the check sequence, escaped, and a flag.
#[tactic(auto, unfolding(crate::specs::Spelling::escaped))]
fn closing(check: [u8; 2]) -> ArrayVec<u8, MOST_AROUND>
    ensures { result.items ≡ escaped check ++ flag ∷ [] }
{
    let [low, high] = check;
    let mut octets = ArrayVec::new();
    push_escaped(low, &mut octets);
    push_escaped(high, &mut octets);
    octets.push(FLAG);
    octets
}

// Appends an octet of content, escaped.
#[tactic(auto, unfolding(crate::specs::Spelling::escaped_octet))]
fn push_escaped(octet: u8, octets: &mut ArrayVec<u8, MOST_AROUND>)
    requires { array_vec_len octets.old ≤ 5 }
    ensures items { octets.new.items ≡ octets.old.items ++ escaped_octet octet }
    ensures few { array_vec_len octets.new ≤ array_vec_len octets.old + 2 }
{
    if octet == FLAG || octet == ESCAPE {
        octets.push(ESCAPE);
        octets.push(octet ^ ESCAPE_BIT);
    } else {
        octets.push(octet);
    }
}

// Appends octets of content, escaped.
fn put_escaped(content: &[u8], out: &mut Room)
    requires { length out.old.items + length (escaped content.now) ≤ out.old.capacity }
    ensures items { out.new.items ≡ out.old.items ++ escaped content.now }
    ensures capacity { out.new.capacity ≡ out.old.capacity }
{
    let mut rest = content;
    while !rest.is_empty() {
        let count = before_flag_or_escape(rest);
        out.put(&rest[..count]);
        if count == rest.len() {
            return;
        }
        out.put(&[ESCAPE, rest[count] ^ ESCAPE_BIT]);
        rest = &rest[count + 1..];
    }
}
