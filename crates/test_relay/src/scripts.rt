//! Scripts read.

use er_base::Side;
use relay_script::{Change, Script, UnitKind, read};
use std::test::Fail;

const EACH_CHANGE: &str = "\
# all of them
relay 1

  lose e sabm 1
repeat r any 2
alter e i 3 4 0F
put r dt 5 -
delay e other 6 70
close r er 1000000000";

fn are_all(script: &Script) -> bool {
    let [lose, repeat, alter, put, delay, close] = script.lines.as_slice() else {
        return false;
    };
    let lost = lose.side == Side::E && lose.kind == UnitKind::Sabm && lose.number == 1;
    let repeated = repeat.side == Side::R && repeat.kind == UnitKind::Any && repeat.number == 2;
    let altered = alter.kind == UnitKind::Info && alter.number == 3;
    let closed = close.kind == UnitKind::Er && close.number == 1_000_000_000;
    lost && repeated
        && altered
        && closed
        && matches!(&alter.change, Change::Alter { place: 4, mask: 15 })
        && matches!(&put.change, Change::Put { text } if text.as_slice().is_empty())
        && matches!(&delay.change, Change::Delay { milliseconds: 70 })
        && matches!(&close.change, Change::Close)
}

#[test]
fn each_change_is_read(rt: HostRuntime) -> Result<(), Fail> {
    let script = read(rt.alloc(), EACH_CHANGE.as_bytes())?;
    assert!(rt; are_all(&script));
    Ok(())
}
