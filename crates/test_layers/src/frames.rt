//! A frame from outside.

use er_base::Room;
use hdlc_frames::laws::frame_length;
use hdlc_frames::{Deframer, Found, Frame, put_frame};
use std::test::Fail;

// Address 03 and body 7e7d05eb, whose check sequence has two octets that are escaped too. Spelled by a
// Python program of its own, with the check sequence by Python's binascii.crc_hqx over the octets with their
// bits reversed.
const ESCAPED: [u8; 13] = [
    0x7e, 0x03, 0x7d, 0x5e, 0x7d, 0x5d, 0x05, 0xeb, 0x7d, 0x5e, 0x7d, 0x5e, 0x7e,
];

#[test]
fn a_frame_is_written_and_read(rt: HostRuntime) -> Result<(), Fail> {
    frame_length();
    let body = [0x7e, 0x7d, 0x05, 0xeb].as_slice();
    let mut out = Room::with_capacity(rt.alloc(), 100)?;
    put_frame(0x03, body, &mut out);
    assert!(rt; out.held() == ESCAPED.as_slice());
    let frame = Frame {
        address: 0x03,
        body,
    };
    let mut deframer = Deframer::new();
    assert!(rt; deframer.feed(&ESCAPED) == (13, Some(Found::Frame(frame))));
    Ok(())
}
