//! Two ends of links, an engine and a radio block centre, wired to each other. They set up the safe connection; then the engine sends
//! messages one at a time, each accepted and taken, and what both send is read until neither has more to say. Prints how many ends were
//! connected, the messages that were taken and their octets, and the frames that were read and their octets, flags included.

mod side;
mod tally;
mod wire;

use crate::ends::tally::Tally;
use crate::ends::wire::Wire;
use crate::numbers::Numbers;
use er_settings::Settings;
use std::io;

/// Measures two ends.
pub fn measure(rt: HostRuntime, numbers: &Numbers) -> io::Result<()> {
    let [length, count, times, size, modulo, window] = numbers.or([24, 8, 1, 128, 8, 7]);
    let settings = if modulo == 128 {
        Settings::extended(window, 15, size, 1_000, 5, 40_000)
    } else {
        Settings::new(window, 15, size, 1_000, 5, 40_000)
    };
    let Ok(settings) = settings else {
        return Err(io::Error::from(io::ErrorKind::InvalidInput));
    };
    let message = [0x55; 1_023];
    let length = length.min(1_023) as usize;
    let mut tally = Tally::new();
    for _ in 0..times {
        let Ok(mut wire) = Wire::new(rt.alloc(), &settings) else {
            return Err(io::Error::from(io::ErrorKind::OutOfMemory));
        };
        wire.set_up(&mut tally);
        for number in 0..count {
            wire.carry(number, &message[..length], &mut tally);
        }
        drop(wire);
    }
    println!(rt; "{tally}")
}
