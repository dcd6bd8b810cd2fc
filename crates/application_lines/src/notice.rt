//! What an application is told.

use er_base::{PrintedWord, Release, Why};

/// Why a message wasn't sent.
#[derive(Clone, Copy, Debug)]
pub enum Refusal {
    /// The end is released.
    Released {
        /// The reason.
        reason: u8,
        /// The sub-reason.
        sub: u8,
    },
    /// The safe connection isn't made.
    NotConnected,
    /// The message has this length.
    Length(usize),
    /// So many messages wait.
    Full(usize),
}

/// A line to an application.
#[derive(Clone, Copy)]
pub enum Notice<'a> {
    /// `connected C PEER`: the safe connection is made.
    Connected {
        /// The number of the connection.
        connection: u64,
        /// The ETCS number of its peer.
        peer: u32,
    },
    /// `message C HEX`: a message of the peer was taken.
    Message {
        /// The number of the connection.
        connection: u64,
        /// The message.
        text: &'a [u8],
    },
    /// `refused C HEX WHY..`: a message of the application wasn't sent.
    Refused {
        /// The number of the connection.
        connection: u64,
        /// The message.
        text: &'a [u8],
        /// Why it wasn't sent.
        refusal: Refusal,
    },
    /// `released C R X local` or `released C R X peer`: the end was released.
    Released {
        /// The number of the connection.
        connection: u64,
        /// The reason and sub-reason, and who released.
        release: Release,
    },
    /// `gone C`: a line named a connection that isn't live.
    Gone {
        /// The number of the connection.
        connection: u64,
    },
    /// `counts LIVE OPENED CONNECTED MESSAGES`: the answer to `counts`.
    Counts {
        /// How many ends live.
        live: u64,
        /// How many connections were opened since the start.
        opened: u64,
        /// How many safe connections were made since the start.
        connected: u64,
        /// How many messages were taken since the start.
        messages: u64,
    },
    /// `keys N`: the key file was read again.
    Keys {
        /// How many entries hold at this moment.
        entries: u64,
    },
    /// `keys FAULT`: the key file can't be had or is refused.
    KeysFault {
        /// The words of the fault.
        words: &'a [PrintedWord<'a>],
    },
    /// `fault LINE WHY`: a line of the application is out of the grammar.
    Fault {
        /// Its number, counted from 1.
        line: u64,
        /// Its first fault.
        why: Why,
    },
}
