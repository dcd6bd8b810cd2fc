//! What a loop with an application goes by, and why it stopped.

ghost use Rattle.er_settings.specs.Ranges.{AllAllowed};

use er_base::EtcsNumber;
use er_settings::Settings;

/// What a loop with an application goes by.
#[derive(Clone, Copy)]
pub struct ServicePlan<'a> {
    /// The settings of each link.
    pub settings: Settings,
    /// The ETCS number of the radio block centre.
    pub rbc: EtcsNumber,
    /// How many turns are done, unless the loop stops before.
    pub turns: u64,
    /// The address to listen at, or to dial.
    pub address: &'a str,
    /// Where the application is awaited: `unix:` and the name of a file.
    pub application: &'a str,
    /// The name of the key file, which is fetched again where the application asks for it.
    pub key_file: &'a str,
}

/// Why a loop with an application stopped.
#[derive(Clone, Copy, Debug, PartialEq, Eq)]
pub enum ServiceEnd {
    /// All turns were done.
    Turns,
    /// The wires ended.
    Ended,
    /// The application asked for no more connections, and none is left.
    Drained,
    /// The one connection of a call was closed.
    Closed,
}

// Settings are in their ranges, by their type: this call does nothing.
pub(crate) fn see_settings(settings: &Settings)
    ensures { AllAllowed settings.now }
{
    let _setup = settings.setup;
}
