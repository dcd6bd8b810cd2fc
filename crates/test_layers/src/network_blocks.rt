//! Blocks of the network header, joined.

use er_base::{Room, octets_of};
use std::test::Fail;
use t70_header::{Joiner, wrap};

// Blocks that come one after another, and what becomes of each, by hand from the block header of ITU-T T.70.
const BLOCKS: &str = "\
-|Err(Header { found: 0, first: 0, second: 0 })
01|Err(Header { found: 1, first: 1, second: 0 })
0000|Err(Header { found: 2, first: 0, second: 0 })
020041|Err(Header { found: 3, first: 2, second: 0 })
0101|Err(Header { found: 2, first: 1, second: 1 })
017f|Err(Header { found: 2, first: 1, second: 127 })
01814142|Err(Header { found: 4, first: 1, second: 129 })
8180|Err(Header { found: 2, first: 129, second: 128 })
01804142|Ok(None)
0180|Ok(None)
010043|Ok(Some([65, 66, 67]))
0100|Ok(Some([]))
018044|Ok(None)
01|Err(Header { found: 1, first: 1, second: 0 })
010045|Ok(Some([69]))";

#[test]
fn joins_up_to_the_last_block(rt: HostRuntime) -> Result<(), Fail> {
    let mut joiner = Joiner::new();
    let mut block = Vec::new(rt.alloc());
    for row in BLOCKS.split('\n') {
        let (word, expected) = row.split_once('|').ok_or("no answer")?;
        block.clear();
        octets_of(word.as_bytes(), &mut block)?;
        let answer = format!(in rt.alloc(); "{:?}", joiner.add(block.as_slice()))?;
        assert!(rt; answer.as_str() == expected, "{row}");
    }
    Ok(())
}

#[test]
fn wraps_in_one_block(rt: HostRuntime) -> Result<(), Fail> {
    let mut out = Room::with_capacity(rt.alloc(), 5)?;
    wrap(&[0x04, 0xF0, 0x00], &mut out);
    assert!(rt; out.held() == [0x01, 0x00, 0x04, 0xF0, 0x00].as_slice());
    Ok(())
}
