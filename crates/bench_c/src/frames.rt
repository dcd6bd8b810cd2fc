//! The deframer: one export that counts the frames of a stream. It lends no frame and keeps none.

ghost use Rattle.std.specs.Prelude.{◌≡◌, option_map};
ghost use Rattle.hdlc_frames.specs.Framing.{frames_of};
ghost use Rattle.hdlc_frames.specs.Shown.{verdict_of_octets_found};
ghost use Rattle.bench_c.specs.FrameCounts.{frame_count, found_count};

use hdlc_frames::laws::goes_on;
use hdlc_frames::{Deframer, Found};

/// The number of frames in a stream that is read in pieces of `piece` octets, or of one octet where `piece`
/// is 0. It doesn't depend on `piece`.
#[unsafe(no_mangle)]
pub extern "C" fn bench_c_frames(stream: &[u8], piece: u32) -> u64
    ensures { result ≡ frame_count (frames_of stream.now) }
{
    goes_on();
    let size = piece.max(1) as usize;
    let mut deframer = Deframer::new();
    let mut count = 0;
    let mut at = 0;
    while at < stream.len() {
        let end = (at - at % size + size).min(stream.len());
        let (used, found) = deframer.feed(&stream[at..end]);
        count += frames_in(found);
        at += used;
    }
    count
}

// The number of frames that one call found.
fn frames_in(found: Option<Found<'_>>) -> u64
    ensures { result ≡ found_count (option_map verdict_of_octets_found found.entry) }
{
    match found {
        Some(Found::Frame(_)) => 1,
        Some(Found::BadFcs | Found::TooShort | Found::TooLong | Found::Aborted) | None => 0,
    }
}

#[cfg(test)]
mod tests {
    use super::bench_c_frames;

    #[test]
    fn counts_frames(rt: HostRuntime) {
        let stream = [
            0x7e, 0x01, 0x3f, 0xeb, 0xdf, 0x7e, 0x01, 0x7e, 0x01, 0x3f, 0xeb, 0xdf, 0x7e, 0x01,
        ];
        assert_eq!(rt; bench_c_frames(&stream, 0), 2);
        assert_eq!(rt; bench_c_frames(&stream, 4), 2);
        assert_eq!(rt; bench_c_frames(&stream, 4096), 2);
    }
}
