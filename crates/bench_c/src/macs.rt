//! The MAC.

ghost use Rattle.std.specs.Prelude.{◌≡◌, ◌<◌, length};
ghost use Rattle.cbc_mac.specs.Mac.{mac_of};
ghost use Rattle.bench_c.specs.MacPieces.{folded_macs};

use cbc_mac::{MacKey, mac};
use des_block::TripleKey;

/// The MAC of a text that isn't empty, under three keys. The key schedules are made for this call.
#[unsafe(no_mangle)]
pub extern "C" fn bench_c_mac(first: u64, second: u64, third: u64, text: &[u8]) -> u64
    requires { 0 < length text.now }
    ensures { result ≡ mac_of (record { first = first; second = second; third = third }) text.now }
{
    mac(
        &TripleKey {
            first,
            second,
            third,
        },
        text,
    )
}

/// The exclusive or of the MACs of many texts of one length, which stand one behind the other, under three
/// keys. The key schedules are made once. Octets behind the last whole text are left out.
#[unsafe(no_mangle)]
pub extern "C" fn bench_c_macs(
    first: u64,
    second: u64,
    third: u64,
    texts: &[u8],
    size: usize,
) -> u64
    requires { 0 < size }
    ensures { result ≡ folded_macs (record { first = first; second = second; third = third }) size texts.now }
{
    let key = MacKey::new(&TripleKey {
        first,
        second,
        third,
    });
    let mut all = 0;
    for i in 0..texts.len() / size {
        all ^= key.mac(&texts[size * i..size * i + size]);
    }
    all
}
