/// How far a side has come.
#[derive(Clone, Copy, Debug, PartialEq, Eq)]
pub enum Stage {
    /// The side was just made.
    New,
    /// The caller connects, and expects CC or DR.
    Calling,
    /// A CR came, which the callee hasn't accepted yet.
    Called,
    /// The connection is made.
    Open,
    /// The connection is over.
    Over,
}
