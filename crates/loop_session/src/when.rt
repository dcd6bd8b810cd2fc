//! When a session is to be woken.

ghost use Rattle.std.specs.Prelude.{◌≡◌, ◌≤◌, ◌+◌};

use er_base::Moment;
use er_settings::Settings;

/// A moment; and the set-up time, after which a session that was released is closed at the latest.
#[derive(Clone, Copy)]
pub struct When {
    /// The moment.
    pub moment: Moment,
    /// The set-up time in milliseconds, at most 600,000.
    pub setup: u64,
    pub ghost short: { setup ≤ 600000 },
}

impl When {
    /// This moment, and the set-up time of these settings.
    pub fn of(moment: Moment, settings: &Settings) -> When
        ensures moment { result.moment ≡ moment }
        ensures setup { result.setup ≡ settings.now.setup }
    {
        When {
            moment,
            setup: settings.setup,
        }
    }

    /// The moment at which a session that is released now is closed at the latest.
    pub fn closing(&self) -> u64
        ensures { result ≡ self.now.moment + self.now.setup }
    {
        self.moment.get() + self.setup
    }
}
