//! A step of a scenario with the number of its line.

use crate::step::Step;

/// A step and the line of its file.
#[derive(Drop)]
pub struct Numbered {
    /// The line, from 1.
    pub line: usize,
    /// The step.
    pub step: Step,
}
