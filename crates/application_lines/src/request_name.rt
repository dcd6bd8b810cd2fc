//! The first words of an application's lines.

ghost use Rattle.std.specs.Prelude.{◌≡◌};
ghost use Rattle.application_lines.specs.Requests.{request_word, request_named};

/// The first words of an application's lines.
#[derive(Clone, Copy, Debug, PartialEq, Eq)]
pub enum RequestName {
    /// `send C HEX`
    Send,
    /// `release C X`
    Release,
    /// `drain`
    Drain,
    /// `keys`
    Keys,
    /// `counts`
    Counts,
}

const ALL: [RequestName; 5] = [
    RequestName::Send,
    RequestName::Release,
    RequestName::Drain,
    RequestName::Keys,
    RequestName::Counts,
];

impl RequestName {
    /// The first word of the line.
    pub fn word(self) -> &'static [u8]
        ensures { result.now ≡ request_word self }
    {
        match self {
            RequestName::Send => b"send",
            RequestName::Release => b"release",
            RequestName::Drain => b"drain",
            RequestName::Keys => b"keys",
            RequestName::Counts => b"counts",
        }
    }

    /// The line that a first word begins, or None where it begins none.
    pub fn named(word: &[u8]) -> Option<RequestName>
        ensures { result ≡ request_named word.now }
    {
        ALL.iter().copied().find(|name| word == name.word())
    }
}
