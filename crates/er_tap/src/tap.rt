//! A tap: what was heard of many lines.

use crate::tap_list::TapList;

/// What a tap says.
#[derive(Debug, Drop)]
pub struct Tap {
    /// Its lines behind the header, in their order.
    pub lines: TapList,
}
