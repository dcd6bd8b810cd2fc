//! The TPDUs of ITU-T X.224 class 2 in their normal formats (clause 13): [`read`] turns octets into a
//! [`Tpdu`] or names the first thing that is wrong with them, and [`write_into`] spells a TPDU.
//!
//! Which parameters are skipped or refused, the order of the faults, and the greatest lengths of user
//! data are this profile's. What a TPDU does to a connection isn't decided here.

#![tactic(auto)]

mod fault;
mod kind;
pub mod laws;
mod parameters;
mod parts;
mod reading;
mod tpdu;
mod writing;

pub use fault::TpFault;
pub use reading::read;
pub use tpdu::Tpdu;
pub use writing::write_into;
