//! The lines of a trace.

use crate::wanted::{Behind, Row, Wanted, behind};

/// The words of events.
pub(crate) const EVENTS: &str =
    "call, answer, octets, send, take, release, tick, ended, fault, stalled, full, unserved";

/// The words of outcomes.
pub(crate) const OUTCOMES: &str = "connected, accepted, taken, none, refused, released, octets";

/// The words behind `refused`.
pub(crate) const REFUSALS: &str = "released, notconnected, length, full";

const EVENT_ROWS: [Row; 12] = [
    (
        "call",
        "E R RB",
        &[Wanted::EtcsNumber, Wanted::EtcsNumber, Wanted::RandomNumber],
    ),
    (
        "answer",
        "R RA",
        &[Wanted::EtcsNumber, Wanted::RandomNumber],
    ),
    ("octets", "HEX", &[Wanted::Octets]),
    ("send", "HEX", &[Wanted::Octets]),
    ("release", "X", &[Wanted::SubReason]),
    ("full", "N", &[Wanted::Number]),
    ("unserved", "N", &[Wanted::Number]),
    ("take", "", &[]),
    ("tick", "", &[]),
    ("ended", "", &[]),
    ("fault", "", &[]),
    ("stalled", "", &[]),
];

/// What stands behind the word of an event; None where no event has it.
pub(crate) fn event_words(event: &[u8]) -> Option<Behind> {
    behind(&EVENT_ROWS, event)
}

const OUTCOME_ROWS: [Row; 6] = [
    ("connected", "PEER", &[Wanted::EtcsNumber]),
    ("accepted", "HEX", &[Wanted::Octets]),
    ("taken", "HEX", &[Wanted::Octets]),
    ("octets", "HEX", &[Wanted::Octets]),
    ("none", "", &[]),
    (
        "released",
        "R X local, or R X peer",
        &[Wanted::SubReason, Wanted::SubReason, Wanted::Releaser],
    ),
];

/// What stands behind the word of an outcome; None where no outcome has it.
pub(crate) fn outcome_words(outcome: &[u8]) -> Option<Behind> {
    behind(&OUTCOME_ROWS, outcome)
}

const REFUSAL_ROWS: [Row; 4] = [
    ("released", "R X", &[Wanted::SubReason, Wanted::SubReason]),
    ("notconnected", "", &[]),
    ("length", "N", &[Wanted::Number]),
    ("full", "N", &[Wanted::Number]),
];

/// What stands behind the word of a refusal; None where no refusal has it.
pub(crate) fn refusal_words(refusal: &[u8]) -> Option<Behind> {
    behind(&REFUSAL_ROWS, refusal)
}
