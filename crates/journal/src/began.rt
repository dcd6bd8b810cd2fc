//! What an event began.

/// What an event began, or why it began nothing.
#[derive(Clone, Copy, Debug, PartialEq, Eq)]
pub enum Began {
    /// It came at an end that stood, and began none.
    Nothing,
    /// An end.
    End,
    /// No end, since as many as can be are live.
    Full,
    /// No end, since no user was left for it.
    Unserved,
}
