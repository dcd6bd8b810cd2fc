/// The totals of a run, over all links and both ends. Each stays at 2^64 - 1.
#[derive(Clone, Copy, Debug, PartialEq, Eq)]
pub struct Totals {
    /// The sends that were Ok.
    pub sent: u64,
    /// The messages that were accepted.
    pub accepted: u64,
    /// The passes.
    pub passes: u64,
    /// The frames that a `lose` removed.
    pub lost: u64,
    /// The frames that a `repeat` copied.
    pub repeated: u64,
}
