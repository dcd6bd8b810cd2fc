/// What a check says of a recording whose events are all taken. Lines are those of the file, from 1.
#[derive(Clone, Copy, Debug, PartialEq, Eq)]
pub enum CheckVerdict {
    /// Each line that isn't skipped is the one that a replay prints there, none is missing, and each is ended.
    Same {
        /// How many lines of outcomes there are.
        outcomes: usize,
    },
    /// This line isn't the one that a replay prints there.
    Differs {
        /// The line.
        line: usize,
    },
    /// The last line isn't ended.
    Cut {
        /// The line.
        line: usize,
    },
    /// A replay prints another line behind the last one.
    Missing {
        /// The line that isn't there.
        line: usize,
    },
}
