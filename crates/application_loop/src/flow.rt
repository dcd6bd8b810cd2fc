//! How a writing went.

// How a writing went.
#[derive(Clone, Copy, Debug, PartialEq, Eq)]
pub(crate) enum Flow {
    // Nothing waits any more.
    Going,
    // There is no room.
    PutOff,
    // A write failed.
    Failing,
}
