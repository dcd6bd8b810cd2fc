//! Two ends in one program, an engine's and a radio block centre's, wired to each other: what the one sends the other is given. They set up
//! the safe connection, the engine sends a message, and what the centre's user took is printed. A program that embeds an end does with it
//! what `Side` does. Keys, moments and random numbers are made up here, which a product must not do.
#![tactic(auto)]

mod side;
mod talk;

use crate::side::{CENTRE, ENGINE, Side};
use crate::talk::talk;
use er_end::{EtcsNumber, KeyFinder, Moment};
use key_store::KeyStore;
use std::io;

const KEYS: &[u8] = b"version = 1
[[key]]
engine = 5
rbc = 9
kmac = \"0123456789abcdef23456789abcdef01456789abcdef0123\"
";

fn main(rt: HostRuntime) -> io::Result<()> {
    let Ok(keys) = KeyStore::from_bytes(rt.alloc(), KEYS) else {
        return Err(io::Error::from(io::ErrorKind::InvalidData));
    };
    let now = Moment::new(0);
    let (called, caller) = (EtcsNumber::new(CENTRE), EtcsNumber::new(ENGINE));
    let Some(kmac) = keys.find(caller, called, now) else {
        return Err(io::Error::from(io::ErrorKind::InvalidData));
    };
    let Ok(mut engine) = Side::engine(rt.alloc(), kmac, 0x0102030405060708, now) else {
        return Err(io::Error::from(io::ErrorKind::OutOfMemory));
    };
    let told = match Side::centre(rt.alloc(), 0x1122334455667788, now) {
        Ok(mut centre) => {
            let told = tell(rt, &keys, &mut engine, &mut centre, now);
            drop(centre);
            told
        }
        Err(_) => Err(io::Error::from(io::ErrorKind::OutOfMemory)),
    };
    drop(engine);
    told
}

// Lets them talk, and prints what came of it.
fn tell(
    rt: HostRuntime,
    keys: &KeyStore,
    engine: &mut Side,
    centre: &mut Side,
    now: Moment,
) -> io::Result<()> {
    if talk(engine, centre, keys, now).is_err() {
        return Err(io::Error::from(io::ErrorKind::OutOfMemory));
    }
    if let (Some(called), Some(caller)) = (engine.peer, centre.peer) {
        println!(rt; "the engine is connected with {called}, the centre with {caller}")?;
    }
    let text = str::from_utf8(&centre.to_user).unwrap_or("octets that are no text");
    println!(rt; "the centre accepted: {text}")
}
