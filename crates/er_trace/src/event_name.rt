//! The names of events, as traces spell them.

ghost use Rattle.std.specs.Prelude.{◌≡◌, length};
ghost use Rattle.er_trace.specs.Table.{event_word, event_named, event_kinds};

/// The lines of a trace that are events.
#[derive(Clone, Copy, Debug, PartialEq, Eq)]
pub enum EventName {
    /// `call E R RB`
    Call,
    /// `answer R RA`
    Answer,
    /// `octets HEX`
    Octets,
    /// `send HEX`
    Send,
    /// `take`
    Take,
    /// `release X`
    Release,
    /// `tick`
    Tick,
    /// `ended`
    Ended,
    /// `fault`
    Fault,
    /// `stalled`
    Stalled,
    /// `full K`
    Full,
    /// `unserved K`
    Unserved,
}

const ALL: [EventName; 12] = [
    EventName::Call,
    EventName::Answer,
    EventName::Octets,
    EventName::Send,
    EventName::Take,
    EventName::Release,
    EventName::Tick,
    EventName::Ended,
    EventName::Fault,
    EventName::Stalled,
    EventName::Full,
    EventName::Unserved,
];

impl EventName {
    /// The word of the event.
    pub fn word(self) -> &'static [u8]
        ensures { result.now ≡ event_word self }
    {
        match self {
            EventName::Call => b"call",
            EventName::Answer => b"answer",
            EventName::Octets => b"octets",
            EventName::Send => b"send",
            EventName::Take => b"take",
            EventName::Release => b"release",
            EventName::Tick => b"tick",
            EventName::Ended => b"ended",
            EventName::Fault => b"fault",
            EventName::Stalled => b"stalled",
            EventName::Full => b"full",
            EventName::Unserved => b"unserved",
        }
    }

    /// The event that a word names, or None where it names none.
    pub fn named(word: &[u8]) -> Option<EventName>
        ensures { result ≡ event_named word.now }
    {
        ALL.iter().copied().find(|name| word == name.word())
    }

    /// How many words stand behind that of the event.
    pub fn arguments(self) -> usize
        ensures { result ≡ length (event_kinds self) }
    {
        match self {
            EventName::Take | EventName::Tick | EventName::Ended => 0,
            EventName::Fault | EventName::Stalled => 0,
            EventName::Octets | EventName::Send | EventName::Release => 1,
            EventName::Full | EventName::Unserved => 1,
            EventName::Answer => 2,
            EventName::Call => 3,
        }
    }
}
