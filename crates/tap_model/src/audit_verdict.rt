//! The verdict on an item that was heard.

ghost use Rattle.std.specs.Prelude.{◌≡◌};
ghost use Rattle.tap_model.specs.VerdictWords.{verdict_word};

/// The verdict on an item that was heard: the first rule that it breaks, or that it breaks none.
#[derive(Clone, Copy, Debug, PartialEq, Eq)]
pub enum AuditVerdict {
    /// It breaks no rule.
    Good,
    /// It is no SaPDU.
    Malformed,
    /// Its direction flag isn't that of its sender.
    Flag,
    /// It is no DI, and not of the kind of its place.
    Unexpected,
    /// Its safety feature isn't 1.
    Feature,
    /// It names another ETCS number than the link has.
    Identity,
    /// It has a MAC, and there is no session key.
    NoKey,
    /// Its MAC isn't that of its sealed text.
    Mac,
}

impl AuditVerdict {
    /// The word of a verdict.
    pub fn word(self) -> &'static [u8]
        ensures { result.now ≡ verdict_word self }
    {
        match self {
            AuditVerdict::Good => b"good",
            AuditVerdict::Malformed => b"malformed",
            AuditVerdict::Flag => b"flag",
            AuditVerdict::Unexpected => b"unexpected",
            AuditVerdict::Feature => b"feature",
            AuditVerdict::Identity => b"identity",
            AuditVerdict::NoKey => b"nokey",
            AuditVerdict::Mac => b"mac",
        }
    }
}
