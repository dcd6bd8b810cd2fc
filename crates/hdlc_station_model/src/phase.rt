//! The phases of a station.

/// What a station is at (ISO/IEC 13239, asynchronous balanced mode).
#[derive(Clone, Copy, Debug, PartialEq, Eq)]
pub enum Phase {
    /// A called station before the set-up frame came, a calling one before it was started.
    Idle,
    /// A calling station whose set-up frame was sent and not answered yet.
    Setting,
    /// The link is set up.
    Up,
    /// The station was released; it does nothing more.
    Down,
}
