//! The station in asynchronous balanced mode (ISO/IEC 13239) as a definition: what a combined station keeps, the frames
//! that it sends, and each rule of what it does at a frame that comes, at a payload handed to it, at a tick.
//!
//! The definitions stand in `specs/`, with whole lists and with numbers that have no bound; a frame shows them modulo 8
//! or 128. `hdlc_station` is the code that does the same over a ring of payloads, and `hdlc_pair_laws` has what follows for
//! two stations over two lines. Here stand the types that both share, and laws of one call.
#![tactic(auto)]

mod counts;
pub mod laws;
mod phase;

pub use counts::Counts;
pub use phase::Phase;
