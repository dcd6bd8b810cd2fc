//! Why no more was heard of what a side of a link sent.

ghost use Rattle.std.specs.Prelude.{◌≡◌};
ghost use Rattle.tap_model.specs.EndWords.{end_word};

/// Why no more was heard of what a side of a link sent.
#[derive(Clone, Copy, Debug, PartialEq, Eq)]
pub enum EndCause {
    /// Nothing opened the link.
    Unopened,
    /// The stream went on to its end.
    Open,
    /// So it did, but its last I frames were out of sequence.
    Gap,
    /// A DISC to the receiver.
    Disc,
    /// A DM or FRMR of the sender.
    Dm,
    /// A block of another header, or of more octets than are joined.
    Block,
    /// A TPDU that can't be read, a DC or an ER.
    Tpdu,
    /// A DT of another number than the next.
    Number,
    /// A message of more octets than a message has.
    Long,
    /// A DR.
    Dr,
}

impl EndCause {
    /// The word of a cause.
    pub fn word(self) -> &'static [u8]
        ensures { result.now ≡ end_word self }
    {
        match self {
            EndCause::Unopened => b"unopened",
            EndCause::Open => b"open",
            EndCause::Gap => b"gap",
            EndCause::Disc => b"disc",
            EndCause::Dm => b"dm",
            EndCause::Block => b"block",
            EndCause::Tpdu => b"tpdu",
            EndCause::Number => b"number",
            EndCause::Long => b"long",
            EndCause::Dr => b"dr",
        }
    }
}
