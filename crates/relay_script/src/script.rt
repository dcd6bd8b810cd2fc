//! What a script says.

use crate::line_list::LineList;

/// What a script says.
#[derive(Debug, Drop)]
pub struct Script {
    /// Its lines behind the header, in their order.
    pub lines: LineList,
}
