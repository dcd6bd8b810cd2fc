//! One history of the outside: all that a program does to its files, its sink, its wires, its clock and its random words, act by act.
//!
//! This profile's own. A function that is handed an [`Outside`] says in one clause which acts it did: they are kept in a list that takes no memory, and
//! that is there over real objects as over those in memory. [`Parts`] makes an outside of the five objects of link_trait, and ties the list to what each of
//! them tells by itself, so that no call can go by unseen.
#![tactic(auto)]

mod absent;
mod history;
mod note;
mod outside;
mod parts;

pub use absent::Absent;
pub use history::History;
pub use note::Note;
pub use outside::Outside;
pub use parts::{Parts, off_line, without_files};
