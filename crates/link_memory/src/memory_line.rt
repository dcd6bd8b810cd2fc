//! The connections of wires in memory.

ghost use Rattle.std.specs.Prelude.{◌≡◌, ◌≤◌, length, is_some};
ghost use Rattle.link_memory.specs.WiresMemory.{line_at, open_at, first_open, new_line};

// How many acts were done as it was opened, and as it was closed; how many octets were taken from it; the room left for
// writing; whether its peer has closed.
#[derive(Clone, Copy)]
pub struct MemoryLine {
    pub from: usize,
    pub closed: Option<usize>,
    pub taken: u128,
    pub room: usize,
    pub is_shut: bool,
}

impl MemoryLine {
    // A connection that is opened behind so many acts.
    pub fn new(done: usize, room: usize) -> MemoryLine
        ensures { result ≡ new_line done room }
    {
        MemoryLine {
            from: done,
            closed: None,
            taken: 0,
            room,
            is_shut: false,
        }
    }
}

// The connection of this number.
pub fn line_at(lines: &[MemoryLine], conn: u64) -> Option<MemoryLine>
    ensures { result ≡ line_at lines.now conn }
{
    if conn == 0 {
        return None;
    }
    lines.get(conn as usize - 1).copied()
}

// The connection of this number, where it is open.
pub fn open_at(lines: &[MemoryLine], conn: u64) -> Option<MemoryLine>
    ensures { result ≡ open_at lines.now conn }
{
    match line_at(lines, conn) {
        Some(line) if line.closed.is_none() => Some(line),
        _ => None,
    }
}

// Whether the connection of this number is open.
pub fn is_open_at(lines: &[MemoryLine], conn: u64) -> bool
    ensures { result ≡ is_some (open_at lines.now conn) }
{
    open_at(lines, conn).is_some()
}

// How many numbers stand up to the first one of a connection that is open, and that number.
#[tactic(auto, using(crate::proofs::ScriptWalks::open_here, crate::proofs::ScriptWalks::open_behind, crate::proofs::ScriptWalks::open_nowhere))]
pub fn first_open(lines: &[MemoryLine], conns: &[u64]) -> (usize, Option<u64>)
    ensures first { result ≡ first_open lines.now conns.now }
    ensures most { result.0 ≤ length conns.now }
{
    let mut passed = 0;
    for conn in conns {
        passed += 1;
        if is_open_at(lines, *conn) {
            return (passed, Some(*conn));
        }
    }
    (passed, None)
}
