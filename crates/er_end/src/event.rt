//! The events of an end.

use crate::deeds::{Deeds, SendRefused};

/// What is given to an end.
#[derive(Clone, Copy, Debug, PartialEq, Eq)]
pub enum Event<'a> {
    /// An end that calls is to begin.
    Start,
    /// Octets come from the line, at most up to the first that closes a frame: those behind it are the next event's.
    Octets(&'a [u8]),
    /// The user sends a message, 1 to 1,023 octets.
    Send(&'a [u8]),
    /// The user takes the oldest message that waits.
    Take,
    /// The user releases, with this sub-reason.
    Release(u8),
    /// The moment has come.
    Tick,
    /// The line ended.
    Ended,
    /// The line failed.
    Fault,
    /// The line stalled.
    Stalled,
}

/// What a user that asked for a message gets.
#[derive(Clone, Copy, Debug, PartialEq, Eq)]
pub enum Taking<'a> {
    /// It didn't ask.
    NotAsked,
    /// No message waits.
    Nothing,
    /// The oldest message, 1 to 1,023 octets.
    Message(&'a [u8]),
}

/// All that came of an event at an end. Octets are lent from the end.
#[derive(Clone, Copy, Debug, PartialEq, Eq)]
pub struct Effects<'a> {
    /// How many octets of [`Event::Octets`] were used: those up to the first that closes a frame, all where none does. Of any other
    /// event 0.
    pub used: usize,
    /// Why a send was refused, where it was: then all is as it was, and there are no deeds.
    pub refused: Option<SendRefused>,
    /// What came of a take.
    pub taken: Taking<'a>,
    /// What else came of it.
    pub deeds: Deeds<'a>,
}
