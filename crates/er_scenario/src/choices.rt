//! The lines `set NAME VALUE`.

ghost use Rattle.std.specs.Prelude.{◌≡◌, if◌then◌else◌, Some, None, IfOk};
ghost use Rattle.er_settings.specs.Ranges.{AllAllowed};
ghost use Rattle.er_scenario.specs.Choices.{choice_named, may_choose, IsNarrow, with_setting, with_choice, chosen_by, default_settings, default_choices};

use crate::level::Level;
use er_base::{Why, decimal};
use er_settings::{SettingName, Settings};

/// What the `set` lines of a file choose.
#[derive(Clone, Copy, Debug, PartialEq, Eq)]
pub struct Choices {
    /// The settings of each link.
    pub settings: Settings,
    /// Whether frames are shown.
    pub show: bool,
}

/// What a `set` line names.
#[derive(Clone, Copy, Debug, PartialEq, Eq)]
pub enum ChoiceName {
    /// The modulo of the numbers of I frames.
    Modulo,
    /// Another setting.
    Setting(SettingName),
    /// Whether frames are shown.
    Show,
}

impl ChoiceName {
    // What a word names, or None where it names nothing.
    fn named(word: &[u8]) -> Option<ChoiceName>
        ensures { result ≡ choice_named word.now }
    {
        if word == b"modulo".as_slice() {
            return Some(ChoiceName::Modulo);
        }
        if word == b"show".as_slice() {
            return Some(ChoiceName::Show);
        }
        match SettingName::named(word) {
            Some(name) => Some(ChoiceName::Setting(name)),
            None => None,
        }
    }
}

/// The settings at a level where no line chooses: with selective reject the window is 4.
pub fn default_settings(level: Level) -> Settings
    ensures value { result ≡ default_settings level }
    ensures allowed { AllAllowed result }
    ensures narrow { IsNarrow level result }
{
    let usual = Settings::usual();
    match level {
        Level::LinkSr => Settings { window: 4, ..usual },
        Level::Safe | Level::Link | Level::Full => usual,
    }
}

/// What holds at a level where no line chooses.
pub fn defaults(level: Level) -> Choices
    ensures value { result ≡ default_choices level }
    ensures allowed { AllAllowed result.settings }
    ensures narrow { IsNarrow level result.settings }
{
    Choices {
        settings: default_settings(level),
        show: false,
    }
}

// Whether links of these settings may have this modulo.
fn may_be_modulo(settings: &Settings, value: u64) -> bool
    ensures { result ≡ may_choose settings.now ChoiceName.Modulo value }
{
    (value == 8 && settings.window <= 7) || value == 128
}

// The settings with one value changed, where the setting may have it.
fn changed(settings: &Settings, name: SettingName, value: u64) -> Option<Settings>
    ensures { result ≡ (if may_choose settings.now (ChoiceName.Setting name) value then Some (with_setting settings.now name value) else None) }
{
    if !name.allows(settings.modulo, value) {
        return None;
    }
    let settings = *settings;
    Some(match name {
        SettingName::Window => Settings {
            window: value as u8,
            ..settings
        },
        SettingName::Credit => Settings {
            credit: value as u8,
            ..settings
        },
        SettingName::Size => Settings {
            size: value as u16,
            ..settings
        },
        SettingName::T1 => Settings {
            t1: value,
            ..settings
        },
        SettingName::N2 => Settings {
            n2: value as u8,
            ..settings
        },
        SettingName::Setup => Settings {
            setup: value,
            ..settings
        },
    })
}

// The choices with one changed, where it may be chosen so.
fn with(choices: &Choices, name: ChoiceName, value: u64) -> Option<Choices>
    ensures { result ≡ (if may_choose choices.now.settings name value then Some (with_choice choices.now name value) else None) }
{
    let Choices { settings, show } = *choices;
    match name {
        ChoiceName::Modulo => {
            if !may_be_modulo(&settings, value) {
                return None;
            }
            let settings = Settings {
                modulo: value as u8,
                ..settings
            };
            Some(Choices { settings, show })
        }
        ChoiceName::Setting(name) => {
            let settings = changed(&settings, name, value)?;
            Some(Choices { settings, show })
        }
        ChoiceName::Show => {
            if value > 1 {
                return None;
            }
            Some(Choices {
                settings,
                show: value == 1,
            })
        }
    }
}

/// The choices at a level after one more `set` line, from its NAME and VALUE.
#[tactic(auto, unfolding(crate::specs::Choices::chosen_by))]
pub fn choose(level: Level, choices: &Choices, name: &[u8], value: &[u8]) -> Result<Choices, Why>
    ensures value { result ≡ chosen_by level choices.now name.now value.now }
    ensures allowed { IfOk result (λ made. AllAllowed made.settings) }
    ensures narrow { IfOk result (λ made. IsNarrow level made.settings) }
{
    let Some(name) = ChoiceName::named(name) else {
        return Err(Why::Value);
    };
    let Some(value) = decimal(value) else {
        return Err(Why::Number);
    };
    let Some(made) = with(choices, name, value) else {
        return Err(Why::Value);
    };
    if !level.allows(&made.settings) {
        return Err(Why::Value);
    }
    Ok(made)
}
