//! The deframer of bits: one export that counts the frames of a line. It lends no frame and keeps none.

ghost use Rattle.std.specs.Prelude.{◌≡◌, ◌≤◌, ◌^◌, length, option_map};
ghost use Rattle.hdlc_fcs.specs.FrameCheck.{sent_bits};
ghost use Rattle.hdlc_bits.specs.Framing.{frames_of_bits};
ghost use Rattle.hdlc_bits.specs.Shown.{verdict_of_bits_found};
ghost use Rattle.bench_c.specs.BitFrameCounts.{frame_count, found_count};

use hdlc_bits::laws::{nothing_is_read, reading_goes_on};
use hdlc_bits::{BitDeframer, BitFound};

/// The number of frames in a line, each octet with its lowest bit first, that is read in pieces of `piece` bits, or of
/// one bit where `piece` is 0. It doesn't depend on `piece`.
#[unsafe(no_mangle)]
pub extern "C" fn bench_c_bit_frames(line: &[u8], piece: u32) -> u64
    requires { length line.now ≤ 2 ^ 60 }
    ensures { result ≡ frame_count (frames_of_bits (sent_bits line.now)) }
{
    reading_goes_on();
    nothing_is_read();
    let size = piece.max(1) as u64;
    let bits = line.len() as u64 * 8;
    let mut deframer = BitDeframer::new();
    let mut count = 0;
    let mut at = 0;
    while at < bits {
        let end = (at - at % size + size).min(bits);
        let (used, found) = deframer.feed(line, at, end);
        count += frames_in(found);
        at += used;
    }
    count
}

// The number of frames that one call found.
fn frames_in(found: Option<BitFound<'_>>) -> u64
    ensures { result ≡ found_count (option_map verdict_of_bits_found found.entry) }
{
    match found {
        Some(BitFound::Frame { .. }) => 1,
        Some(
            BitFound::Aborted
            | BitFound::TooLong
            | BitFound::Ragged(_)
            | BitFound::TooShort
            | BitFound::BadFcs,
        )
        | None => 0,
    }
}

#[cfg(test)]
mod tests {
    use super::bench_c_bit_frames;

    #[test]
    fn counts_frames(rt: HostRuntime) {
        let line = [
            0x7e, 0x01, 0x5f, 0xd6, 0x77, 0xfb, 0xfd, 0x7e, 0x01, 0x5f, 0xd6, 0x77, 0xfb, 0xfd,
        ];
        assert_eq!(rt; bench_c_bit_frames(&line, 0), 2);
        assert_eq!(rt; bench_c_bit_frames(&line, 13), 2);
        assert_eq!(rt; bench_c_bit_frames(&line, 4096), 2);
    }
}
