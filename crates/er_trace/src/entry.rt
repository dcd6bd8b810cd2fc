//! An event of a trace, with its moment and connection.

use crate::event::Event;
use er_base::Moment;

/// An event of a trace.
#[derive(Debug, Drop)]
pub struct Entry {
    /// Its line in the file, from 1.
    pub line: usize,
    /// Its moment.
    pub moment: Moment,
    /// The number of the connection.
    pub conn: u64,
    /// What came.
    pub event: Event,
}
