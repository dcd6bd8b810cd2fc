//! What a loop is to do, as its turns carry it.

ghost use Rattle.er_settings.specs.Ranges.{AllAllowed};

use er_base::EtcsNumber;
use er_settings::Settings;

// What a loop goes by, beside its keys.
#[derive(Clone, Copy)]
pub(crate) struct LoopPlan {
    pub(crate) settings: Settings,
    // The ETCS number of the radio block centre.
    pub(crate) rbc: EtcsNumber,
    // How many users were handed in.
    pub(crate) handed: u64,
    // How many turns are to be done.
    pub(crate) turns: u64,
    // Whether it dials its one connection.
    pub(crate) dials: bool,
}

// Settings are in their ranges, by their type: this call does nothing.
pub(crate) fn see_settings(settings: &Settings)
    ensures { AllAllowed settings.now }
{
    let _setup = settings.setup;
}
