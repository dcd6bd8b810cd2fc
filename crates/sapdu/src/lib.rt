//! The SaPDUs of SUBSET-037, the messages of its safety layer: what octets spell which of them, how they are read and
//! written, and the text of each that its MAC seals.
//!
//! All six kinds are here: AU1, AU2, AU3 and AR of the set-up, DT, and DI; every other header octet is a fault. Nothing here
//! computes or tests a MAC: `cbc_mac` does the first, `safety_automaton` decides what is accepted.
#![tactic(auto)]

mod fault;
mod kind;
pub mod laws;
mod message;
mod pdu;
mod reader;
mod sealed_text;
mod writer;

pub use fault::SaFault;
pub use kind::SaKind;
pub use message::{MOST_OCTETS, MOST_USER_OCTETS, is_message};
pub use pdu::SaPdu;
pub use reader::{peers_di, read};
pub use sealed_text::{MOST_TEXT_OCTETS, SealedText};
pub use writer::write_into;
