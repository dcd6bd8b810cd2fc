//! A trace: what happened at connections, and what came of it.

use crate::entry_list::EntryList;
use er_settings::Settings;

/// What a trace says.
#[derive(Debug, Drop)]
pub struct Trace {
    /// The settings of each end, each in its range, at modulo 8.
    pub settings: Settings,
    /// The events, in their order.
    pub entries: EntryList,
}
