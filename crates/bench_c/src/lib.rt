//! What bench/ measures beside programs in C, as a static library: the MAC, the deframer, and the deframer of bits.
//!
//! Octets cross as a pointer and a length, keys as three numbers of 64 bits, octet 1 the most significant. Nothing is kept between calls.
#![tactic(auto)]

mod bits;
mod frames;
mod macs;

pub use bits::bench_c_bit_frames;
pub use frames::bench_c_frames;
pub use macs::{bench_c_mac, bench_c_macs};
