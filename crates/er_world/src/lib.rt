//! The world of a drill: links of two ends under a line that does what the steps say, and the text that comes of it.
#![tactic(auto)]

mod action;
mod counts;
mod ledger;
mod lines;
mod link;
mod openings;
mod place;
mod port;
mod sealed_pairs;
mod waiting;
mod world;

pub use drill_model::{Totals, WorldFault};
pub use world::World;
