//! The tap of this profile: which links were tapped, and what each side of them sent, piece by piece. It is read into its lines.
//!
//! Whether a line names a link that was opened is no matter of the grammar, and nothing is judged here.
#![tactic(auto)]

mod arguments;
mod digits;
mod line_name;
mod plain_line;
mod reader;
mod rest;
mod steps;
mod tap;
mod tap_line;
mod tap_list;
mod tap_step;

pub use reader::read;
pub use tap::Tap;
pub use tap_line::TapLine;
pub use tap_list::TapList;
pub use tap_step::TapStep;
