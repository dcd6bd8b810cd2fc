//! The lines of a tap, kept.

ghost use Rattle.std.specs.Prelude.{◌≡◌};

use crate::tap_line::TapLine;
use std::marker::Model;

/// The lines of a tap in their order, which contracts see as the list itself.
#[derive(Debug, Drop)]
pub struct TapList {
    list: Vec<TapLine>,
}

impl Model for TapList {
    ghost use Rattle.std.specs.Prelude.{List};
    ghost use Rattle.er_tap.specs.declared.tap_line.TapLine.{TapLine};

    ghost Value = { List TapLine };

    ghost view = { λ s. s.list.items };
}

impl TapList {
    /// Keeps the list.
    pub fn new(list: Vec<TapLine>) -> TapList
        ensures { result ≡ list.items }
    {
        TapList { list }
    }

    /// Lends the list.
    pub fn as_slice(&self) -> &[TapLine]
        ensures { result.now ≡ self.now }
    {
        self.list.as_slice()
    }
}
