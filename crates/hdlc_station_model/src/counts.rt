//! What a station counts.

/// The frames that a station ignored, by their kind. Each count stays at its greatest value.
#[derive(Clone, Copy, Debug, PartialEq, Eq)]
pub struct Counts {
    /// Frames whose check sequence is wrong.
    pub bad_fcs: u64,
    /// Frames whose content has under 4 octets.
    pub short: u64,
    /// Frames whose content has above 1,032 octets.
    pub long: u64,
    /// Frames that an escape before the closing flag aborted.
    pub aborted: u64,
    /// Frames that the station doesn't expect: another address, or a control that isn't for its phase.
    pub stray: u64,
}
