//! The script of a relay (this profile): which units of a side are lost, repeated, altered, delayed, given octets before them, or the last. It is read
//! into its lines.
//!
//! What a unit is, and of which kinds, is no matter of the grammar.
#![tactic(auto)]

mod arguments;
mod change;
mod change_name;
mod line_list;
mod lines;
mod reader;
mod script;
mod script_line;
mod unit_kind;

pub use change::Change;
pub use line_list::LineList;
pub use reader::read;
pub use script::Script;
pub use script_line::ScriptLine;
pub use unit_kind::{KIND_COUNT, UnitKind};
