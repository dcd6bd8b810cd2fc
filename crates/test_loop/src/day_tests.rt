//! A day in small: three trains at once, and a fourth in the place of the second, whose wire failed.

use crate::lines::{count_of, lines_of};
use crate::script::Script;
use crate::serving::{randoms_behind, serve_in_memory};
use crate::train::{keys, trains};
use er_base::NoMemory;
use er_trace::read;
use er_users::{Echo, SafeUser};
use key_store::KeyStore;
use link_memory::MemorySink;
use std::alloc::Global;
use std::test::Fail;
use trace_replay::replay;

// Which of the three trains is ready first, second and third.
const ORDERS: [[u8; 3]; 6] = [
    [0, 1, 2],
    [0, 2, 1],
    [1, 0, 2],
    [1, 2, 0],
    [2, 0, 1],
    [2, 1, 0],
];

// The position reports of a train.
const REPORTS: u8 = 10;

// The rounds in which each train speaks, from its call until all its reports were said back.
const WHOLE: u8 = 16;

// The rounds until the wire of the second fails, as its fourth report is said back.
const UNTIL_IT_FAILS: u8 = 7;

// A set-up frame.
const LATE: &[u8] = &[0x7e, 0x01, 0x3f, 0xeb, 0xdf, 0x7e];

// The script of a day. The wire of the second train fails at a write of its last round.
fn day(alloc: Global, keys: &KeyStore, order: [u8; 3]) -> Result<Script, NoMemory> {
    let mut trains = trains(alloc, 4, 0, REPORTS)?;
    let mut script = Script::new(alloc);
    for _ in 0..3 {
        script.accept()?;
    }
    for round in 0..UNTIL_IT_FAILS {
        for place in order {
            script.speak(alloc, keys, place, &mut trains)?;
            if place == 1 && round + 1 == UNTIL_IT_FAILS {
                script.fail_here();
            }
        }
    }
    script.accept()?;
    script.come_late(alloc, 2, LATE)?;
    for _ in 0..WHOLE {
        for place in order {
            let place = if place == 1 { 3 } else { place };
            script.speak(alloc, keys, place, &mut trains)?;
        }
    }
    Ok(script)
}

// The script of one train.
fn alone(alloc: Global, keys: &KeyStore, behind: u8) -> Result<Script, NoMemory> {
    let mut train = trains(alloc, 1, behind, REPORTS)?;
    let mut script = Script::new(alloc);
    script.accept()?;
    for _ in 0..WHOLE {
        script.speak(alloc, keys, 0, &mut train)?;
    }
    Ok(script)
}

// What is printed of a script, with so many Echos, behind so many random words.
fn printed(
    alloc: Global,
    keys: &KeyStore,
    script: Script,
    echos: u8,
    words: u8,
) -> Result<MemorySink, Fail> {
    let mut users: Vec<Box<dyn SafeUser>> = Vec::new(alloc);
    for _ in 0..echos {
        users.push(Box::new(alloc, Echo::new())?)?;
    }
    serve_in_memory(alloc, keys, script, users, &mut randoms_behind(words))
}

// The lines of one train that is alone.
fn lines_alone(alloc: Global, keys: &KeyStore, behind: u8) -> Result<Vec<u8>, Fail> {
    let script = alone(alloc, keys, behind)?;
    let sink = printed(alloc, keys, script, 1, behind)?;
    Ok(lines_of(alloc, sink.held(), b"1")?)
}

// Whether a train is connected, and each of its ten reports is taken and said back.
fn is_whole(lines: &[u8]) -> bool {
    count_of(lines, b"< connected") == 1
        && count_of(lines, b"< taken") == 10
        && count_of(lines, b"> send") == 10
}

// Whether the replay of a text is that text.
fn is_replayed(alloc: Global, keys: &KeyStore, text: &[u8]) -> Result<bool, Fail> {
    let trace = read(alloc, text)?;
    let mut printed = Vec::new(alloc);
    replay(alloc, keys, &trace, &mut printed)?;
    Ok(printed.as_slice() == text)
}

#[test]
fn a_day_in_small(rt: HostRuntime) -> Result<(), Fail> {
    let alloc = rt.alloc();
    let keys = keys(alloc)?;
    for order in ORDERS {
        let script = day(alloc, &keys, order)?;
        let sink = printed(alloc, &keys, script, 4, 0)?;
        let text = sink.held();
        for (behind, conn) in [(0, b"1"), (2, b"3"), (3, b"4")] {
            let lines = lines_of(alloc, text, conn)?;
            let lines_alone = lines_alone(alloc, &keys, behind)?;
            assert!(rt; is_whole(lines_alone.as_slice()));
            assert!(rt; lines.as_slice() == lines_alone.as_slice(), "{behind}");
        }
        let second = lines_of(alloc, text, b"2")?;
        assert_eq!(rt; count_of(second.as_slice(), b"> send"), 4);
        assert!(rt;
            second
                .as_slice()
                .ends_with(b"> fault\n< released 1 6 local\n")
        );
        assert!(rt; is_replayed(alloc, &keys, text)?);
    }
    Ok(())
}
