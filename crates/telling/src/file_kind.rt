/// The kind of a file that a command reads.
#[derive(Clone, Copy, Debug, PartialEq, Eq)]
pub enum FileKind {
    /// A drill.
    Drill,
    /// A trace or a recording.
    Trace,
    /// A tap.
    Tap,
    /// A recorded synchronous line.
    Bits,
    /// The script of a relay.
    Script,
}

impl FileKind {
    // What the first line of such a file is.
    pub(crate) fn header(self) -> &'static str {
        match self {
            FileKind::Drill =>
                "a drill begins with the line 'drill 1 LEVEL', LEVEL one of safe, link, link-sr, full",
            FileKind::Trace => {
                "a trace begins with the line 'trace 1 WINDOW CREDIT SIZE T1 N2 SETUP', as 'trace 1 7 15 128 1000 5 40000'"
            }
            FileKind::Tap => "a tap begins with the line 'tap 1'",
            FileKind::Bits => "a recorded line has no header",
            FileKind::Script => "a script begins with the line 'relay 1'",
        }
    }

    // The words with which its lines begin.
    pub(crate) fn beginnings(self) -> &'static str {
        match self {
            FileKind::Drill => {
                "set, link, fixed, wire, send, pass, lose, repeat, alter, put, copy, take, release, tick, drain"
            }
            FileKind::Trace => "> before an event, < before an outcome",
            FileKind::Tap => "link, octets",
            FileKind::Bits => "none",
            FileKind::Script => "lose, repeat, alter, put, delay, close",
        }
    }
}
