//! A frame with zero insertion from outside.

use hdlc_bits::laws::frame_length;
use hdlc_bits::{BitDeframer, BitFound, BitRoom, put_bits};
use std::test::Fail;

// The octets of a frame with address 01 and body 3f, as another program made them: 50 bits, and ones behind them.
const SABM_LINE: [u8; 7] = [0x7e, 0x01, 0x5f, 0xd6, 0x77, 0xfb, 0xfd];

#[test]
fn a_frame_is_written_and_read(rt: HostRuntime) -> Result<(), Fail> {
    frame_length();
    let mut room = BitRoom::with_capacity(rt.alloc(), 56)?;
    put_bits(0x01, &[0x3f], &mut room);
    assert!(rt; room.len() == 50 && room.octets() == SABM_LINE.as_slice());
    let frame = BitFound::Frame {
        address: 0x01,
        body: &[0x3f],
    };
    let mut deframer = BitDeframer::new();
    assert!(rt; deframer.feed(&SABM_LINE, 0, 50) == (50, Some(frame)));
    Ok(())
}
