//! A scenario: its settings, and its steps in order.

use crate::level::Level;
use crate::step_list::StepList;
use er_settings::Settings;

/// What a drill file says.
#[derive(Drop)]
pub struct Scenario {
    /// How much of the stack runs.
    pub level: Level,
    /// The settings of each link, each in its range.
    pub settings: Settings,
    /// Whether each frame that is sent is printed too.
    pub show: bool,
    /// The steps, in their order.
    pub steps: StepList,
}
