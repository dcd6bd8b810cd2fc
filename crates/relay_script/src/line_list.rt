//! The lines of a script, kept.

ghost use Rattle.std.specs.Prelude.{◌≡◌};

use crate::script_line::ScriptLine;
use std::marker::Model;

/// The lines of a script in their order, which contracts see as the list itself.
#[derive(Debug, Drop)]
pub struct LineList {
    list: Vec<ScriptLine>,
}

impl Model for LineList {
    ghost use Rattle.std.specs.Prelude.{List};
    ghost use Rattle.relay_script.specs.declared.script_line.ScriptLine.{ScriptLine};

    ghost Value = { List ScriptLine };

    ghost view = { λ s. s.list.items };
}

impl LineList {
    /// Keeps the list.
    pub fn new(list: Vec<ScriptLine>) -> LineList
        ensures { result ≡ list.items }
    {
        LineList { list }
    }

    /// Lends the list.
    pub fn as_slice(&self) -> &[ScriptLine]
        ensures { result.now ≡ self.now }
    {
        self.list.as_slice()
    }
}
