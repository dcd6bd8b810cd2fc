/// What a command does with a file, behind a key file.
#[derive(Clone, Copy, Debug, PartialEq, Eq)]
pub enum Work {
    /// Its events are replayed.
    Replay,
    /// Its lines are held against those that a replay prints.
    Check,
    /// Its links are audited.
    Audit {
        /// Whether the ends of streams are asked for.
        ends: bool,
    },
}
