//! A line of a tap, read.

use crate::tap_step::TapStep;

/// What a line of a tap says, and the line of its file.
#[derive(Debug, Drop)]
pub struct TapLine {
    /// The line, from 1.
    pub line: usize,
    /// What it says.
    pub step: TapStep,
}
