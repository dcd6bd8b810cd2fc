//! Frames of ISO/IEC 13239 under synchronous transmission with bit transparency: zeros are inserted behind five
//! ones, so that six ones are a flag wherever they stand.
//!
//! `BitDeframer` reads frames out of a line that comes in pieces, cut at any bit; `put_bits` writes a frame into a
//! `BitRoom`. What a line is read as is defined on the whole line (`specs/Framing.antt`); `laws` has what follows
//! for every list of pieces. The greatest length of a frame and the order of the verdicts are this profile's. Bits
//! are told in octets, each with its lowest bit first. Only `BitRoom::with_capacity` takes memory.
#![tactic(auto)]

mod deframer;
mod found;
mod judgement;
pub mod laws;
mod room;
mod segment;
mod writing;

pub use deframer::BitDeframer;
pub use found::BitFound;
pub use room::BitRoom;
pub use writing::put_bits;
