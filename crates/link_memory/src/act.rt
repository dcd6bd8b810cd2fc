//! What happens at wires in memory.

ghost use Rattle.std.specs.Prelude.{◌≡◌, ◌≤◌, ◌+◌, ◌-◌, ◌++◌, ◌||◌, not, min, take, drop, length};
ghost use Rattle.std.specs.Option.{option_copied};
ghost use Rattle.link_memory.specs.WiresMemory.{octets_to, between, first_act, is_accept, brought_by};

use er_base::Octets;

/// One act of the script of wires in memory. An act on a connection that isn't open gives its happening and changes nothing
/// else.
#[derive(Debug, Drop)]
pub enum Act {
    /// A peer's connection is accepted: Accepted. It is skipped where nobody listens.
    Accept,
    /// Octets come to a connection and wait there: Readable.
    Bring { conn: u64, octets: Octets },
    /// The room of a connection is set: Writable.
    Room { conn: u64, room: usize },
    /// The peer of a connection closes: Readable.
    Shut { conn: u64 },
    /// Nothing happens: Quiet.
    Quiet,
}

impl Act {
    // Whether a turn does it: an accept alone is skipped, where nobody listens.
    fn is_next(&self, listening: bool) -> bool
        ensures { result ≡ (listening || not (is_accept self.now)) }
    {
        listening || !matches!(self, Act::Accept)
    }

    // The octets that it brings to a connection.
    fn brings(&self, to: u64) -> &[u8]
        ensures { result.now ≡ brought_by to self.now }
    {
        match self {
            Act::Bring { conn, octets } if *conn == to => octets.as_slice(),
            _ => &[],
        }
    }
}

// What stands behind so many elements.
pub fn behind<T>(list: &[T], count: usize) -> &[T]
    ensures { result.now ≡ drop count list.now }
{
    list.get(count..).unwrap_or(&[])
}

// The first so many elements.
pub fn front<T>(list: &[T], count: usize) -> &[T]
    ensures { result.now ≡ take count list.now }
{
    list.get(..count).unwrap_or(list)
}

// The acts from one place to another.
pub fn between(acts: &[Act], from: usize, to: usize) -> &[Act]
    ensures { result.now ≡ between from to acts.now }
{
    let tail = behind(acts, from);
    front(tail, to.saturating_sub(from))
}

// How many octets the acts bring to a connection.
#[tactic(auto, using(crate::proofs::ScriptWalks::count_next, crate::proofs::ScriptWalks::count_end))]
pub fn count_of(acts: &[Act], conn: u64) -> u128
    ensures { result ≡ length (octets_to conn acts.now) }
{
    let mut count = 0;
    for act in acts {
        count += act.brings(conn).len() as u128;
    }
    count
}

// Puts octets into the slice, behind so many, as far as it goes, and answers how many.
fn put_part(into: &mut [u8], at: usize, octets: &[u8]) -> usize
    requires { at ≤ length into.old }
    ensures length { length into.new ≡ length into.old }
    ensures count { result ≡ min (length octets.now) (length into.old - at) }
    ensures put { take (at + result) into.new ≡ take at into.old ++ take result octets.now }
{
    let count = octets.len().min(into.len() - at);
    into[at..at + count].copy_from_slice(&octets[..count]);
    count
}

// Puts the octets that the acts bring to a connection, behind so many of them, into the slice, as far as it goes.
pub fn copy_brought(acts: &[Act], conn: u64, taken: u128, into: &mut [u8]) -> usize
    ensures length { length into.new ≡ length into.old }
    ensures most { result ≤ length into.old }
    ensures count { result ≡ min (length into.old) (length (octets_to conn acts.now) - taken) }
    ensures copied { take result into.new ≡ take (length into.old) (drop taken (octets_to conn acts.now)) }
{
    let mut passed = taken;
    let mut filled = 0;
    for act in acts {
        let octets = act.brings(conn);
        let skipped = usize::try_from(passed)
            .unwrap_or(usize::MAX)
            .min(octets.len());
        passed -= skipped as u128;
        filled += put_part(into, filled, behind(octets, skipped));
    }
    filled
}

// How many acts stand up to the first one that isn't skipped, and that act. An accept is skipped where nobody listens.
#[tactic(auto, using(crate::proofs::ScriptWalks::act_here, crate::proofs::ScriptWalks::act_behind, crate::proofs::ScriptWalks::act_nowhere))]
pub fn first_act(acts: &[Act], listening: bool) -> (usize, Option<&Act>)
    ensures count { result.0 ≡ (first_act listening acts.now).0 }
    ensures act { option_copied result.1 ≡ (first_act listening acts.now).1 }
    ensures most { result.0 ≤ length acts.now }
{
    let mut passed = 0;
    for act in acts {
        passed += 1;
        if act.is_next(listening) {
            return (passed, Some(act));
        }
    }
    (passed, None)
}
