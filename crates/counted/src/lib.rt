//! Counts of a journal: an outside over another one, which counts what is recorded through it.
//!
//! This profile's own. Whoever tells people how a loop goes on has its counts from here. They are counts over the entries of the journal, each exact as
//! far as 64 bits go: one clause says so of all that was recorded with success.
#![tactic(auto)]

mod counted;
mod counts;
pub mod laws;
mod release_count;

pub use counted::Counted;
pub use counts::{JournalCounts, MOST_RELEASES};
pub use release_count::ReleaseCount;
