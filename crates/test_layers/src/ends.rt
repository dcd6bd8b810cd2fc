//! Two ends that talk in memory.

use des_block::TripleKey;
use er_base::{EtcsNumber, Moment};
use er_end::End;
use er_settings::Settings;
use session_keys::Kmac;
use std::test::Fail;

const KEY: TripleKey = TripleKey {
    first: 0x0123456789abcdef,
    second: 0x23456789abcdef01,
    third: 0x456789abcdef0123,
};

// The set-up frame of the link.
const SABM: &[u8] = b"\x7E\x01\x3F\xEB\xDF\x7E";

#[test]
fn an_end_that_calls_begins(rt: HostRuntime) -> Result<(), Fail> {
    let settings = Settings::usual();
    let (engine, rbc) = (EtcsNumber::new(5), EtcsNumber::new(9));
    let now = Moment::new(0);
    let kmac = Kmac::new(KEY);
    let mut end = End::call(
        rt.alloc(),
        &settings,
        engine,
        rbc,
        kmac,
        0x0102030405060708,
        now,
    )?;
    let is_begun = end.start(now).out == SABM;
    drop(end);
    assert!(rt; is_begun);
    Ok(())
}

#[test]
fn an_end_that_answers_waits(rt: HostRuntime) -> Result<(), Fail> {
    let rbc = EtcsNumber::new(9);
    let now = Moment::new(0);
    let end = End::answer(rt.alloc(), &Settings::usual(), rbc, 0x1122334455667788, now)?;
    let is_waiting = end.deadline().is_some();
    drop(end);
    assert!(rt; is_waiting);
    Ok(())
}
