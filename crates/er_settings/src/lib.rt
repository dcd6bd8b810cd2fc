//! The settings of one link: window, timer and modulo of the HDLC station, credit and size of the
//! transport, and the time that a set-up may take. The ranges and the defaults are this profile's;
//! the terms are those of ISO/IEC 13239 (window, T1, N2, modulo) and ITU-T X.224 (credit, TPDU size).
//! Nothing here acts on a setting, and no setting can be changed in a running link.

#![tactic(auto)]

pub mod laws;
mod setting_name;
mod settings;

pub use setting_name::SettingName;
pub use settings::{SettingFault, Settings};
