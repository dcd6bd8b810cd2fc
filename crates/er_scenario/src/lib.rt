//! The drill file of this profile: its grammar, read into a scenario and printed from one.
//!
//! A drill file has a header, lines that choose settings, and lines that are the steps of a run. Whether a step can
//! be carried out, as that its link was opened, is no matter of the grammar, and nothing is run here.
#![tactic(auto)]

mod arguments;
mod choices;
mod header;
pub mod laws;
mod level;
mod numbered;
mod printer;
mod reader;
mod said;
mod scenario;
mod step;
mod step_list;
mod step_name;
mod steps;

pub use level::Level;
pub use numbered::Numbered;
pub use printer::print;
pub use reader::read;
pub use scenario::Scenario;
pub use step::Step;
pub use step_list::StepList;
