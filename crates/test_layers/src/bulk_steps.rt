//! The steps that a bulk drill draws.

use drill_bulk::steps;
use er_base::Side;
use er_scenario::Step;
use std::test::Fail;

// How many messages e sends, how many frames are lost and repeated, and the sum of the lengths of the messages.
fn tally_of(list: &[Step]) -> [u64; 4] {
    let mut tally: [u64; 4] = [0; 4];
    for step in list {
        match step {
            Step::Send { side, text, .. } => {
                if *side == Side::E {
                    tally[0] = tally[0].saturating_add(1);
                }
                tally[3] = tally[3].saturating_add(text.as_slice().len() as u64);
            }
            Step::Lose { .. } => tally[1] = tally[1].saturating_add(1),
            Step::Repeat { .. } => tally[2] = tally[2].saturating_add(1),
            _ => {}
        }
    }
    tally
}

// The answers are those of another implementation of the generator: the seed, how many messages, how many steps, and their tally.
#[test]
fn draws_who_sends_and_what_the_line_does(rt: HostRuntime) -> Result<(), Fail> {
    let rows = [
        (0, 0, 2, [0, 0, 0, 0]),
        (1, 100, 625, [53, 10, 13, 9_596]),
        (7, 1_000, 6_252, [488, 121, 129, 101_147]),
        (u64::MAX, 1_000, 6_238, [497, 126, 110, 98_613]),
    ];
    for (seed, count, number, tally) in rows {
        let list = steps(rt.alloc(), seed, count)?;
        assert!(rt;
            list.len() == number && tally_of(list.as_slice()) == tally,
            "{seed}"
        );
    }
    Ok(())
}
