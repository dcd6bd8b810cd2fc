//! One end of a link, as a maker of equipment embeds it: a station (ISO/IEC 13239), network blocks (ITU-T T.70), a transport (ITU-T
//! X.224 class 2) and one side of a safe connection (UNISIG SUBSET-037), joined by this profile.
//!
//! An [`End`] takes one event at a time, octets of the line, a message, a tick, and gives deeds and the octets that go to the line. It
//! has no clock, no line and no random source: moments, octets and random numbers come in as values. Its two makers reserve all memory;
//! no other call takes any. Its contracts say each call as one function of what is kept, and `laws` that these are the steps of the end
//! model (`er_end_model`). The types that its calls take and give, of whatever layer, are given on here.
#![tactic(auto)]

mod came;
mod deeds;
mod end;
mod event;
mod inbox;
pub mod laws;
mod layers;
mod line;
mod own_tpdu;
mod safety_side;
mod sapdu_room;
mod short_sapdu;

pub use deeds::{Deeds, SendRefused, Taken};
pub use des_block::TripleKey;
pub use end::End;
pub use er_base::{Cause, EtcsNumber, Moment, NoMemory, Release};
pub use er_settings::Settings;
pub use event::{Effects, Event, Taking};
pub use hdlc_station_model::Counts;
pub use safety_automaton::{KeyFinder, PairKey};
pub use session_keys::{Kmac, SessionKeys};
