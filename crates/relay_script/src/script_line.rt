//! A line of a script: which unit of each connection it names, and what it does.

use crate::change::Change;
use crate::unit_kind::UnitKind;
use er_base::Side;

/// A line of a script: which unit of each connection it names, and what it does.
#[derive(Debug, Drop)]
pub struct ScriptLine {
    /// The side that sends the unit.
    pub side: Side,
    /// The kind of units that are counted.
    pub kind: UnitKind,
    /// Which of them the unit is, 1 to 10^9.
    pub number: u32,
    /// What is done to what is given for it.
    pub change: Change,
}
