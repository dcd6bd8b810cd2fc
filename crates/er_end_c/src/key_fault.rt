//! Why a key file is refused: kinds of faults, and fields.

/// The text is no TOML document.
pub const DOCUMENT: u32 = 1;
/// The version is neither 1 nor 2.
pub const VERSION: u32 = 2;
/// A field of an entry is missing or of another type.
pub const FIELD: u32 = 3;
/// The KMAC of an entry is not 48 hexadecimal digits.
pub const HEX: u32 = 4;
/// A number of an entry is out of its range.
pub const NUMBER: u32 = 5;
/// The first moment of an entry is behind its last one.
pub const RANGE: u32 = 6;
/// Two entries of one pair have a moment in common.
pub const TWICE: u32 = 7;

/// The version.
pub const FIELD_VERSION: u32 = 1;
/// The list of entries.
pub const FIELD_KEY: u32 = 2;
/// The ETCS number of an entry's engine.
pub const FIELD_ENGINE: u32 = 3;
/// The ETCS number of its radio block centre.
pub const FIELD_RBC: u32 = 4;
/// Its KMAC.
pub const FIELD_KMAC: u32 = 5;
/// Its first moment.
pub const FIELD_FROM: u32 = 6;
/// Its last moment.
pub const FIELD_TO: u32 = 7;
