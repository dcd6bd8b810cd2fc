//! With what a drill's station of the link layer is made.

ghost use Rattle.std.specs.Prelude.{◌≡◌, ◌≤◌, ◌*◌, true};

use er_settings::Settings;
use hdlc_station::Reject;
use std::marker::Model;

/// How both stations of a link are made: with selective reject or without, and by which settings. With selective reject the window is at most
/// half of the modulo.
#[derive(Drop)]
pub struct StationPlan {
    pub(crate) selective: bool,
    pub(crate) settings: Settings,
}

impl Model for StationPlan {
    ghost use Rattle.std.specs.Prelude.{◌≡◌, ◌≤◌, ◌*◌, true};
    ghost use Rattle.drill_ends.specs.StationPlans.{StationsPlan};

    ghost Value = { StationsPlan };

    ghost view = { λ p. record { selective = p.selective; settings = p.settings } };

    ghost invariant = { λ p. p.selective ≡ true → 2 * p.settings.window ≤ p.settings.modulo };
}

impl StationPlan {
    ghost use Rattle.hdlc_station.specs.Stations.{is_selective_reject};

    /// Stations of this kind and with these settings.
    pub fn new(selective: bool, settings: Settings) -> StationPlan
        requires { selective ≡ true → 2 * settings.window ≤ settings.modulo }
        ensures { result ≡ record { selective = selective; settings = settings } }
    {
        StationPlan {
            selective,
            settings,
        }
    }
    // How these stations ask for frames that were lost.
    pub(crate) fn reject(&self) -> Reject
        ensures { is_selective_reject result ≡ self.now.selective }
    {
        if self.selective {
            Reject::Selective
        } else {
            Reject::GoBack
        }
    }
}
