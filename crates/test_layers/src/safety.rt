//! Set-up, messages and release of two sides of the safety layer.

use des_block::TripleKey;
use er_base::{EtcsNumber, Moment, Room};
use safety_automaton::{PairKey, Safe, SafeDeed, SafeState};
use session_keys::Kmac;
use std::test::Fail;

const KEY: TripleKey = TripleKey {
    first: 0x0123456789abcdef,
    second: 0x23456789abcdef01,
    third: 0x456789abcdef0123,
};

// An AU1 of engine 5.
const AU1: [u8; 13] = [0x42, 0, 0, 5, 1, 1, 2, 3, 4, 5, 6, 7, 8];

// The SaPDUs of the set-up, each of which is given to the other side, and a message.
#[test]
fn sets_up_and_carries_a_message(rt: HostRuntime) -> Result<(), Fail> {
    let (five, nine) = (EtcsNumber::new(5), EtcsNumber::new(9));
    let now = Moment::new(1000);
    let keys = PairKey::new(five, nine, Kmac::new(KEY));
    let mut to_rbc = Room::with_capacity(rt.alloc(), 1032)?;
    let mut to_engine = Room::with_capacity(rt.alloc(), 1032)?;
    let mut engine = Safe::initiator(five, nine, Kmac::new(KEY), 0x0102030405060708);
    let mut rbc = Safe::responder(nine, 0x1112131415161718);
    if engine.state() == SafeState::Ready {
        engine.start(&mut to_rbc);
    }
    assert!(rt; to_rbc.held() == AU1.as_slice());
    rbc.receive(&keys, now, to_rbc.held(), &mut to_engine);
    to_rbc.clear();
    engine.receive(&keys, now, to_engine.held(), &mut to_rbc);
    to_engine.clear();
    rbc.receive(&keys, now, to_rbc.held(), &mut to_engine);
    to_rbc.clear();
    engine.receive(&keys, now, to_engine.held(), &mut to_rbc);
    to_rbc.clear();
    to_engine.clear();
    assert!(rt; engine.send(b"ab", &mut to_rbc) == Ok(()));
    let deed = rbc.receive(&keys, now, to_rbc.held(), &mut to_engine);
    let is_accepted = match deed {
        SafeDeed::Accepted(octets) => octets == b"ab".as_slice(),
        _ => false,
    };
    assert!(rt; is_accepted);
    Ok(())
}
