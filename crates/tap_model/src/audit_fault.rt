//! Why an audit ends before its last line.

ghost use Rattle.std.specs.Prelude.{◌≡◌};
ghost use Rattle.tap_model.specs.declared.audit_fault.AuditFault.TheVariants as fault;

use er_base::NoMemory;

/// Why an audit ends before its last line. The line is that of the tap's text.
#[derive(Clone, Copy, Debug, PartialEq, Eq)]
pub enum AuditFault {
    /// No line before opened the link.
    NoLink {
        /// The line.
        line: usize,
        /// The number of the link.
        link: u8,
    },
    /// The link is opened for the second time.
    LinkTwice {
        /// The line.
        line: usize,
        /// The number of the link.
        link: u8,
    },
    /// A write to the sink failed.
    Sink,
    /// Want of memory.
    NoMemory(NoMemory),
}

impl From<NoMemory> for AuditFault {
    ghost from_gives = { λ want e. e ≡ fault.NoMemory want };

    fn from(want: NoMemory) -> AuditFault {
        AuditFault::NoMemory(want)
    }
}
