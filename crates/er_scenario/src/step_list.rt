//! The steps of a scenario, kept.

ghost use Rattle.std.specs.Prelude.{◌≡◌};

use crate::numbered::Numbered;
use std::marker::Model;

/// Steps in their order, which contracts see as the list itself.
#[derive(Drop)]
pub struct StepList {
    list: Vec<Numbered>,
}

impl Model for StepList {
    ghost use Rattle.std.specs.Prelude.{List};
    ghost use Rattle.er_scenario.specs.declared.numbered.Numbered.{Numbered};

    ghost Value = { List Numbered };

    ghost view = { λ s. s.list.items };
}

impl StepList {
    /// Keeps the list.
    pub fn new(list: Vec<Numbered>) -> StepList
        ensures { result ≡ list.items }
    {
        StepList { list }
    }

    /// Lends the list.
    pub fn as_slice(&self) -> &[Numbered]
        ensures { result.now ≡ self.now }
    {
        self.list.as_slice()
    }
}
