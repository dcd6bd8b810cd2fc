//! The header of a trace.

ghost use Rattle.std.specs.Prelude.{◌≡◌, map, IfSome};
ghost use Rattle.er_trace.specs.Headers.{settings_allowed, settings_of_six, settings_spelled, header_settings};

use er_base::decimal;
use er_settings::Settings;

// The settings of modulo 8 with these values, or None where one is out of its range.
fn allowed(window: u64, credit: u64, size: u64, t1: u64, n2: u64, setup: u64) -> Option<Settings>
    ensures value { result ≡ settings_allowed window credit size t1 n2 setup }
    ensures modulo { IfSome result (λ settings. settings.modulo ≡ 8) }
{
    match Settings::new(window, credit, size, t1, n2, setup) {
        Ok(settings) => Some(settings),
        Err(_) => None,
    }
}

// The settings that six decimal words name.
#[tactic(auto, unfolding(crate::specs::Headers::settings_of_six))]
fn six(
    window: &[u8],
    credit: &[u8],
    size: &[u8],
    t1: &[u8],
    n2: &[u8],
    setup: &[u8],
) -> Option<Settings>
    ensures value { result ≡ settings_of_six window.now credit.now size.now t1.now n2.now setup.now }
    ensures modulo { IfSome result (λ settings. settings.modulo ≡ 8) }
{
    let Some(window) = decimal(window) else {
        return None;
    };
    let Some(credit) = decimal(credit) else {
        return None;
    };
    let Some(size) = decimal(size) else {
        return None;
    };
    let Some(t1) = decimal(t1) else {
        return None;
    };
    let Some(n2) = decimal(n2) else {
        return None;
    };
    let Some(setup) = decimal(setup) else {
        return None;
    };
    allowed(window, credit, size, t1, n2, setup)
}

// The settings of the words behind the version.
#[tactic(auto, unfolding(crate::specs::Headers::settings_spelled))]
fn spelled(words: &[&[u8]]) -> Option<Settings>
    ensures value { result ≡ settings_spelled (map (λ w. w.now) words.now) }
    ensures modulo { IfSome result (λ settings. settings.modulo ≡ 8) }
{
    let [window, credit, size, t1, n2, setup] = words else {
        return None;
    };
    six(window, credit, size, t1, n2, setup)
}

/// The settings that the words of a header name, or None where they are no header.
#[tactic(auto, unfolding(crate::specs::Headers::header_settings))]
pub fn read_settings(words: &[&[u8]]) -> Option<Settings>
    ensures value { result ≡ header_settings (map (λ w. w.now) words.now) }
    ensures modulo { IfSome result (λ settings. settings.modulo ≡ 8) }
{
    let (trace, behind) = words.split_first()?;
    let (version, values) = behind.split_first()?;
    if *trace == b"trace".as_slice() && *version == b"1".as_slice() {
        spelled(values)
    } else {
        None
    }
}
