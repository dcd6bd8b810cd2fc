//! The trace of this profile: what came at the ends of connections, event by event, and what came of it. It is read into the
//! events alone, and its lines are printed one by one.
//!
//! Whether an event can come at its connection, as that the connection was opened, is no matter of the grammar, and nothing
//! is run here.
#![tactic(auto)]

mod argument_kind;
mod arguments;
mod entry;
mod entry_list;
mod event;
mod event_name;
mod events;
mod header;
pub mod laws;
mod outcome;
mod outcome_name;
mod outcomes;
mod printer;
mod reader;
mod refusal_name;
mod said;
mod trace;

pub use entry::Entry;
pub use entry_list::EntryList;
pub use event::Event;
pub use outcome::Outcome;
pub use printer::{print_entry, print_header, print_octets, print_outcome, print_send};
pub use reader::read;
pub use trace::Trace;
