//! A line of a trace, read.

use crate::event::Event;

/// What a line behind the header says.
#[derive(Drop)]
pub enum Said {
    /// An event.
    Happens {
        /// Its moment, at most 10^15 milliseconds.
        moment: u64,
        /// Its connection.
        conn: u64,
        /// What came.
        event: Event,
    },
    /// An outcome, which is dropped.
    Tells,
}
