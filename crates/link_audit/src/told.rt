//! What is told of how a stream ended.

use tap_model::EndCause;

/// What is told of how a stream ended. Counts stay at 2^64 - 1.
#[derive(Clone, Copy)]
pub struct Told {
    /// Intact frames.
    pub frames: u64,
    /// I frames that counted.
    pub heard: u64,
    /// Items.
    pub items: u64,
    /// Intact frames behind the one that ended it.
    pub left: u64,
    /// Why no more was heard.
    pub why: EndCause,
}
