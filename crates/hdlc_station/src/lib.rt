//! A combined station in asynchronous balanced mode (ISO/IEC 13239), with numbers modulo 8 or 128, that asks for frames that were lost by REJ or
//! by SREJ.
//!
//! [`Station`] does what a station of `hdlc_station_model` does, with go-back or with selective reject as it was made ([`Reject`]): its contracts
//! say of each call which step of the model it is. The model has whole lists and numbers without a bound; the code keeps numbers modulo the
//! modulo, one ring of payloads that its maker reserves (`specs/Kept.antt`), and with selective reject a place for each number of its window
//! (`specs/Places.antt`). The two ways differ in the frames that come: `go_back` and `selective` stand on one core. Only the makers take memory.
#![tactic(auto)]

mod content;
mod deeds;
mod go_back;
mod heard;
mod hearing;
pub mod laws;
mod payload;
mod place;
mod places;
mod reject;
mod ring;
mod selective;
mod selective_heard;
mod sending;
mod station;
mod station_core;
mod timing;

pub use deeds::{Full, LinkDeed};
pub use hdlc_station_model::Counts;
pub use reject::Reject;
pub use station::Station;
