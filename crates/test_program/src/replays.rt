//! The commands `replay` and `check`, over objects in memory.

ghost use Rattle.std.specs.Prelude.{[], ◌∷◌};

use des_block::TripleKey;
use er_base::{EtcsNumber, Moment, NoMemory, decimal_word};
use er_trace::read;
use safety_automaton::KeyFinder;
use session_keys::Kmac;
use std::alloc::Global;
use std::test::Fail;
use trace_replay::{ReplayFault, replay};

const KEY: TripleKey = TripleKey {
    first: 0x0123456789abcdef,
    second: 0x23456789abcdef01,
    third: 0x456789abcdef0123,
};

// The KMAC of engine 5 and radio block centre 9, up to the moment 999.
struct OneKey;

impl KeyFinder for OneKey {
    ghost entries = { λ k. record { engine = 5; rbc = 9; kmac = record { first = 0x0123456789abcdef; second = 0x23456789abcdef01; third = 0x456789abcdef0123 }; first = 0; last = 999 } ∷ [] };

    fn find(&self, engine: EtcsNumber, rbc: EtcsNumber, now: Moment) -> Option<Kmac> {
        if engine.get() == 5 {
            if rbc.get() == 9 {
                if now.get() <= 999 {
                    return Some(Kmac::new(KEY));
                }
            }
        }
        None
    }
}

// Whether the replay of a text prints this and ends so.
fn replays(
    alloc: Global,
    text: &[u8],
    printed: &[u8],
    end: Result<(), ReplayFault>,
) -> Result<bool, NoMemory> {
    let Ok(trace) = read(alloc, text) else {
        return Ok(false);
    };
    let mut text = Vec::new(alloc);
    let answer = replay(alloc, &OneKey, &trace, &mut text);
    Ok(answer == end && text.as_slice() == printed)
}

const SET_UP_TIME: &[u8] = b"trace 1 7 15 128 1000 5 40000
> 0 1 answer 9 0000000000000001
> 0 1 octets 7e013febdf7e
< 1 octets 7e017383577e
> 40000 1 tick
< 1 released 6 1 local
< 1 octets 7e035331457e
";

const TWO: &[u8] = b"trace 1 7 15 128 1000 5 40000
> 0 1 answer 9 0000000000000001
> 0 7 full 256
> 1 2 answer 8 0000000000000002
> 1 1 octets 7e013f
> 2 2 octets 7e013febdf7e
< 2 octets 7e017383577e
> 3 1 octets ebdf7e7e013febdf7e
< 1 octets 7e017383577e
< 1 octets 7e017383577e
> 3 1 ended
< 1 released 1 5 local
> 4 2 send aa
< 2 refused notconnected
> 4 1 send aa
< 1 refused released 1 5
> 5 1 take
< 1 none
> 6 1 octets 7e013febdf7e
> 7 2 octets 7e013febdf7e
< 2 octets 7e017383577e
";

#[test]
fn a_replay_prints_the_text_again(rt: HostRuntime) -> Result<(), Fail> {
    assert!(rt; replays(rt.alloc(), SET_UP_TIME, SET_UP_TIME, Ok(()))?);
    assert!(rt; replays(rt.alloc(), TWO, TWO, Ok(()))?);
    Ok(())
}

// Whether a header and some events print this behind the header, before a fault.
fn refuses(
    alloc: Global,
    events: &[u8],
    printed: &[u8],
    fault: ReplayFault,
) -> Result<bool, NoMemory> {
    let mut text = Vec::from_slice(alloc, HEADER)?;
    text.extend_from_slice(events)?;
    let mut all = Vec::from_slice(alloc, HEADER)?;
    all.extend_from_slice(printed)?;
    replays(alloc, text.as_slice(), all.as_slice(), Err(fault))
}

const HEADER: &[u8] = b"trace 1 7 15 128 1000 5 40000\n";

#[test]
fn each_check_refuses(rt: HostRuntime) -> Result<(), Fail> {
    let table: [(&[u8], &[u8], ReplayFault); 6] = [
        (b"> 0 9 tick", b"", ReplayFault::NoConn { line: 2, conn: 9 }),
        (
            b"> 0 9 full 1\n> 0 9 tick",
            b"> 0 9 full 1\n",
            ReplayFault::NoConn { line: 3, conn: 9 },
        ),
        (
            b"> 5 9 full 1\n> 4 8 full 1",
            b"> 5 9 full 1\n",
            ReplayFault::MomentBack {
                line: 3,
                was: 5,
                now: 4,
            },
        ),
        (
            b"> 5 9 full 1\n> 5 9 answer 9 0000000000000001",
            b"> 5 9 full 1\n",
            ReplayFault::ConnTwice { line: 3, conn: 9 },
        ),
        (
            b"> 999 1 call 5 8 0000000000000001",
            b"",
            ReplayFault::NoKey {
                line: 2,
                engine: 5,
                rbc: 8,
            },
        ),
        (
            b"> 1000 1 call 5 9 0000000000000001",
            b"",
            ReplayFault::NoKey {
                line: 2,
                engine: 5,
                rbc: 9,
            },
        ),
    ];
    for (events, printed, fault) in table {
        assert!(rt; refuses(rt.alloc(), events, printed, fault)?);
    }
    Ok(())
}

// Lines that answer, so many.
fn answers(alloc: Global, count: u64) -> Result<Vec<u8>, NoMemory> {
    let mut text = Vec::new(alloc);
    for number in 0..count {
        text.extend_from_slice(b"> 0 ")?;
        decimal_word(number, &mut text)?;
        text.extend_from_slice(b" answer 9 0000000000000001\n")?;
    }
    Ok(text)
}

#[test]
fn at_most_256_ends_are_live(rt: HostRuntime) -> Result<(), Fail> {
    let printed = answers(rt.alloc(), 256)?;
    let mut events = answers(rt.alloc(), 256)?;
    events.extend_from_slice(b"> 0 256 call 5 9 0000000000000001")?;
    let fault = ReplayFault::Many {
        line: 258,
        live: 256,
    };
    assert!(rt; refuses(rt.alloc(), events.as_slice(), printed.as_slice(), fault)?);
    Ok(())
}
