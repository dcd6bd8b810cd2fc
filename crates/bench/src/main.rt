//! Measures of the library, each in one process: the first word says of what, and numbers follow, each with a default.
//!
//! - `go-back` and `selective`, two stations: octets of a payload (114; 1 to 1,026), modulo (128, or 8), window (31), how many frames
//!   of a hundred the line loses (10), its seed (1), payloads (2,000).
//! - `transport`, two sides of a transport connection: messages (1,000), octets of each (1,032; 1 to 1,032), TPDU size (128).
//! - `ends`, two whole ends: octets of a message (24; 1 to 1,023), messages (8), how often all of it is done anew (1), TPDU size (128),
//!   modulo (8, or 128), window (7).
//! - `trains`, the readiness loop as a radio block centre: trains (2; at most 256), reports of each (4), how often the record of what they
//!   sent is served in a round (1), rounds (1).
//! - `all`, each of them with its defaults.
//!
//! How long each takes is told by the scripts of bench/. Nothing is claimed of it.
#![tactic(auto)]

mod ends;
mod numbers;
mod stations;
mod trains;
mod transport;

use crate::numbers::Numbers;
use std::{env, io};

// Runs what the word says. None where it says nothing.
fn measure(rt: HostRuntime, name: &str, numbers: &Numbers) -> Option<io::Result<()>> {
    match name {
        "go-back" => Some(stations::measure(rt, false, numbers)),
        "selective" => Some(stations::measure(rt, true, numbers)),
        "transport" => Some(transport::measure(rt, numbers)),
        "ends" => Some(ends::measure(rt, numbers)),
        "trains" => Some(trains::measure(rt, numbers)),
        _ => None,
    }
}

// Runs each of them with its defaults.
fn measure_all(rt: HostRuntime) -> io::Result<()> {
    let defaults = Numbers::none();
    stations::measure(rt, false, &defaults)?;
    stations::measure(rt, true, &defaults)?;
    transport::measure(rt, &defaults)?;
    ends::measure(rt, &defaults)?;
    trains::measure(rt, &defaults)
}

fn main(rt: HostRuntime) -> io::Result<()> {
    let mut words = env::args(&rt)?;
    let _program = words.next();
    let Some(name) = words.next() else {
        return measure_all(rt);
    };
    if name.as_str() == "all" {
        return measure_all(rt);
    }
    let mut numbers = Numbers::none();
    for word in words {
        numbers.add(word.parse::<u64>().ok());
    }
    if let Some(measured) = measure(rt, name.as_str(), &numbers) {
        return measured;
    }
    eprintln!(rt;
        "usage: bench (go-back | selective | transport | ends | trains) NUMBER .., or bench all"
    )?;
    Err(io::Error::from(io::ErrorKind::InvalidInput))
}
