//! What a frame came to.

use tap_model::EndCause;

/// What the information of a frame that counts came to.
#[derive(Clone, Copy)]
pub enum TextOutcome {
    /// Nothing yet, and more may be heard.
    NoText,
    /// A text.
    Text,
    /// The last text.
    LastText,
    /// Nothing more is heard.
    Ended(EndCause),
}

/// What a frame came to.
#[derive(Clone, Copy)]
pub enum FrameOutcome {
    /// It doesn't count.
    PassedOver,
    /// It counts.
    Counted(TextOutcome),
    /// It ended the link.
    LinkEnded(EndCause),
}
