//! The settings of an end: timers, window, retries and credit.

ghost use Rattle.std.specs.Prelude.{◌≡◌, MatchResult, IfOk};
ghost use Rattle.er_settings.specs.Ranges.{Allows, IsModulo, AllAllowed};
ghost use Rattle.er_settings.specs.Making.{IsFirstRefusedSetting, settings_of, usual_settings};

use crate::setting_name::SettingName;
use std::marker::Model;
use thiserror::Error;

/// The modulo of the numbers of I frames, ISO/IEC 13239.
const MODULO: u8 = 8;
/// The modulo of the extended form.
const EXTENDED_MODULO: u8 = 128;

/// What the two ends of a link agree on before it is set up. Each field is in its range where the
/// value came from [`Settings::new`], [`Settings::extended`] or [`Settings::usual`].
#[derive(Clone, Copy, Debug, PartialEq, Eq)]
pub struct Settings {
    /// How many I frames a station may have unacknowledged: 1 to 7 at modulo 8, 1 to 31 at modulo 128.
    pub window: u8,
    /// How many DT TPDUs an end grants to its peer, 1 to 15.
    pub credit: u8,
    /// The greatest number of octets of a TPDU: 128, 256, 512 or 1,024.
    pub size: u16,
    /// The time T1 after which unacknowledged frames are sent again, 100 to 60,000 milliseconds.
    pub t1: u64,
    /// How often T1 may expire in a row without progress, N2, 1 to 10.
    pub n2: u8,
    /// The time from the making of an end to its being connected, 1,000 to 600,000 milliseconds.
    pub setup: u64,
    /// The modulo of the numbers of I frames: 8, or 128 in the extended form.
    pub modulo: u8,
}

impl Model for Settings {
    ghost use Rattle.er_settings.specs.Values.{Settings};
    ghost use Rattle.er_settings.specs.Ranges.{AllAllowed};

    ghost Value = { Settings };

    ghost view = { λ s. record {
      window = s.window;
      credit = s.credit;
      size = s.size;
      t1 = s.t1;
      n2 = s.n2;
      setup = s.setup;
      modulo = s.modulo;
    } };

    ghost inverse = { λ s. record {
      window = s.window;
      credit = s.credit;
      size = s.size;
      t1 = s.t1;
      n2 = s.n2;
      setup = s.setup;
      modulo = s.modulo;
    } };

    ghost invariant = { λ s. AllAllowed (record {
      window = s.window;
      credit = s.credit;
      size = s.size;
      t1 = s.t1;
      n2 = s.n2;
      setup = s.setup;
      modulo = s.modulo;
    }) };
}

/// A setting that is out of its range: which one, and the value that it was to have.
#[derive(Clone, Copy, Debug, PartialEq, Eq, Error)]
#[error("the setting {field:?} may not be {value}")]
pub struct SettingFault {
    /// The setting that is out of its range.
    pub field: SettingName,
    /// The value that was asked for.
    pub value: u64,
}

impl Settings {
    /// The settings of modulo 8 with these values, times in milliseconds; the window is 1 to 7.
    /// Refuses exactly where a value is out of its range, and then names the first such one in the
    /// order of the arguments.
    pub fn new(
        window: u64,
        credit: u64,
        size: u64,
        t1: u64,
        n2: u64,
        setup: u64,
    ) -> Result<Settings, SettingFault>
        ensures exact { MatchResult result
            (λ made. made ≡ settings_of 8 window credit size t1 n2 setup)
            (λ fault. IsFirstRefusedSetting 8 window credit size t1 n2 setup fault.field fault.value) }
        ensures allowed { IfOk result (λ made. AllAllowed made) }
    {
        Settings::at_modulo(MODULO, window, credit, size, t1, n2, setup)
    }

    /// The settings of modulo 128 with these values, times in milliseconds; the window is 1 to 31,
    /// and the other ranges are those of [`Settings::new`], which refuses alike.
    pub fn extended(
        window: u64,
        credit: u64,
        size: u64,
        t1: u64,
        n2: u64,
        setup: u64,
    ) -> Result<Settings, SettingFault>
        ensures exact { MatchResult result
            (λ made. made ≡ settings_of 128 window credit size t1 n2 setup)
            (λ fault. IsFirstRefusedSetting 128 window credit size t1 n2 setup fault.field fault.value) }
        ensures allowed { IfOk result (λ made. AllAllowed made) }
    {
        Settings::at_modulo(EXTENDED_MODULO, window, credit, size, t1, n2, setup)
    }

    /// The defaults of this profile: window 7, credit 15, size 128, T1 of one second, N2 of 5, forty
    /// seconds for the set-up, and modulo 8.
    pub fn usual() -> Settings
        ensures value { result ≡ usual_settings }
        ensures allowed { AllAllowed result }
    {
        Settings {
            window: 7,
            credit: 15,
            size: 128,
            t1: 1_000,
            n2: 5,
            setup: 40_000,
            modulo: MODULO,
        }
    }

    // The settings of a modulo.
    fn at_modulo(
        modulo: u8,
        window: u64,
        credit: u64,
        size: u64,
        t1: u64,
        n2: u64,
        setup: u64,
    ) -> Result<Settings, SettingFault>
        requires { IsModulo modulo }
        ensures exact { MatchResult result
            (λ made. made ≡ settings_of modulo window credit size t1 n2 setup)
            (λ fault. IsFirstRefusedSetting modulo window credit size t1 n2 setup fault.field fault.value) }
        ensures allowed { IfOk result (λ made. AllAllowed made) }
    {
        Ok(Settings {
            window: allowed(modulo, SettingName::Window, window)? as u8,
            credit: allowed(modulo, SettingName::Credit, credit)? as u8,
            size: allowed(modulo, SettingName::Size, size)? as u16,
            t1: allowed(modulo, SettingName::T1, t1)?,
            n2: allowed(modulo, SettingName::N2, n2)? as u8,
            setup: allowed(modulo, SettingName::Setup, setup)?,
            modulo,
        })
    }
}

// The value as it came where the setting may have it, so that each field is tested and named once.
fn allowed(modulo: u8, field: SettingName, value: u64) -> Result<u64, SettingFault>
    ensures { MatchResult result
        (λ v. Allows modulo field value × (v ≡ value))
        (λ fault. (Allows modulo field value → ⊥) × (fault.field ≡ field) × (fault.value ≡ value)) }
{
    if field.allows(modulo, value) {
        Ok(value)
    } else {
        Err(SettingFault { field, value })
    }
}
