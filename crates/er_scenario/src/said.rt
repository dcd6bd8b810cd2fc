//! A line of a scenario, read.

use crate::choices::Choices;
use crate::step::Step;

/// What a line behind the header says.
#[derive(Drop)]
pub enum Said {
    /// It chooses: what all lines so far chose.
    Chooses(Choices),
    /// It is a step.
    Does(Step),
}
