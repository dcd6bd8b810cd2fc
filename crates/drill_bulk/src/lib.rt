//! The steps of a bulk run: many messages over one link at level full, whose line now and then loses or repeats a frame.
//!
//! Which end sends, how long a message is and what the line does is drawn from a generator that a number seeds, so a run can be made
//! again. Nothing is run here.
#![tactic(auto)]

mod bulk;

pub use bulk::{MOST_MESSAGES, steps};
