//! The names of settings, as texts spell them.

ghost use Rattle.std.specs.Prelude.{◌≡◌, ◌<◌, ◌≤◌};
ghost use Rattle.er_settings.specs.Ranges.{is_allowed};
ghost use Rattle.er_settings.specs.Names.{setting_word, setting_named};

/// The name of one of the settings that have a range; the modulo has two values and decides that of
/// the window.
#[derive(Clone, Copy, Debug, PartialEq, Eq)]
pub enum SettingName {
    /// The window of the station.
    Window,
    /// The credit of the transport.
    Credit,
    /// The TPDU size.
    Size,
    /// The timer T1.
    T1,
    /// The greatest number of expiries, N2.
    N2,
    /// The set-up time.
    Setup,
}

/// All names, in the order in which texts name them.
const ALL: [SettingName; 6] = [
    SettingName::Window,
    SettingName::Credit,
    SettingName::Size,
    SettingName::T1,
    SettingName::N2,
    SettingName::Setup,
];

impl SettingName {
    /// Whether the setting may have this value at this modulo, 8 or 128. Times are in milliseconds.
    pub fn allows(self, modulo: u8, value: u64) -> bool
        ensures { result ≡ is_allowed modulo self value }
    {
        match self {
            SettingName::Window => 1 <= value && value <= if modulo == 128 { 31 } else { 7 },
            SettingName::Credit => (1..=15).contains(&value),
            SettingName::Size => matches!(value, 128 | 256 | 512 | 1_024),
            SettingName::T1 => (100..=60_000).contains(&value),
            SettingName::N2 => (1..=10).contains(&value),
            SettingName::Setup => (1_000..=600_000).contains(&value),
        }
    }

    /// The word of this setting in this profile's texts.
    pub fn word(self) -> &'static [u8]
        ensures { result.now ≡ setting_word self }
    {
        match self {
            SettingName::Window => b"window",
            SettingName::Credit => b"credit",
            SettingName::Size => b"size",
            SettingName::T1 => b"t1",
            SettingName::N2 => b"n2",
            SettingName::Setup => b"setup",
        }
    }

    /// The setting that a word of this profile's texts names, or None where it names none.
    pub fn named(word: &[u8]) -> Option<SettingName>
        ensures { result ≡ setting_named word.now }
    {
        ALL.iter().copied().find(|name| word == name.word())
    }
}
