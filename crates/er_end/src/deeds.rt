//! What an event at an end came to.

use er_base::Release;

/// What an event at an end came to. Octets are lent from the end.
#[derive(Clone, Copy, Debug, PartialEq, Eq)]
pub struct Deeds<'a> {
    /// The safe connection came to stand, with the peer of this ETCS number, below 2^24.
    pub connected: Option<u32>,
    /// The message of the peer's user that was accepted, 1 to 1,023 octets. It waits until it is taken.
    pub accepted: Option<&'a [u8]>,
    /// Why the end was released, where this event did it.
    pub released: Option<Release>,
    /// The octets that go to the line.
    pub out: &'a [u8],
}

/// A message that was taken.
#[derive(Clone, Copy, Debug, PartialEq, Eq)]
pub struct Taken<'a> {
    /// The message.
    pub text: &'a [u8],
    /// The octets that go to the line: none from a released end.
    pub out: &'a [u8],
}

/// Why a message isn't sent: the first of these, in this order, that holds.
#[derive(Clone, Copy, Debug, PartialEq, Eq)]
pub enum SendRefused {
    /// The end is released, for this reason.
    Released(Release),
    /// The safe connection doesn't stand yet.
    NotConnected,
    /// The octets are this many, and not 1 to 1,023.
    Length(usize),
    /// This many messages, 16, wait for their last segment to be handed down.
    Full(usize),
}
