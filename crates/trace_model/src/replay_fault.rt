//! Why a replay ends before the last event of its trace.

ghost use Rattle.std.specs.Prelude.{◌≡◌};
ghost use Rattle.trace_model.specs.declared.replay_fault.ReplayFault.TheVariants as fault;

use er_base::NoMemory;

/// Why a replay ends before the last event of its trace. The line is that of the event that isn't taken.
#[derive(Clone, Copy, Debug, PartialEq, Eq)]
pub enum ReplayFault {
    /// Nothing opened the connection.
    NoConn {
        /// The line.
        line: usize,
        /// The number of the connection.
        conn: u64,
    },
    /// The number of the connection was given before.
    ConnTwice {
        /// The line.
        line: usize,
        /// The number.
        conn: u64,
    },
    /// The moment is below an earlier one.
    MomentBack {
        /// The line.
        line: usize,
        /// The greatest moment before.
        was: u64,
        /// The moment.
        now: u64,
    },
    /// The pair of a call has no key at the moment.
    NoKey {
        /// The line.
        line: usize,
        /// The ETCS number of the engine.
        engine: u32,
        /// That of the radio block centre.
        rbc: u32,
    },
    /// So many ends are live that no other may be opened.
    Many {
        /// The line.
        line: usize,
        /// How many are live.
        live: usize,
    },
    /// A write to the sink failed.
    Sink,
    /// Want of memory.
    NoMemory(NoMemory),
}

impl From<NoMemory> for ReplayFault {
    ghost from_gives = { λ want e. e ≡ fault.NoMemory want };

    fn from(want: NoMemory) -> ReplayFault {
        ReplayFault::NoMemory(want)
    }
}
