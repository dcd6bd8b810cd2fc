//! Two sides of a transport connection: the caller hands messages, the callee takes each at once, and the TPDUs of both go over without a
//! line between. Prints how many messages were taken and how many TPDUs carried them.

mod sides;

use crate::numbers::Numbers;
use crate::transport::sides::Sides;
use er_settings::Settings;
use std::io;

/// Measures two sides of a transport connection.
pub fn measure(rt: HostRuntime, numbers: &Numbers) -> io::Result<()> {
    let [count, octets, size] = numbers.or([1_000, 1_032, 128]);
    let Ok(settings) = Settings::new(7, 15, size, 1_000, 5, 40_000) else {
        return Err(io::Error::from(io::ErrorKind::InvalidInput));
    };
    if octets == 0 || octets > 1_032 {
        return Err(io::Error::from(io::ErrorKind::InvalidInput));
    }
    let Some(mut sides) = Sides::new(rt.alloc(), &settings) else {
        return Err(io::Error::from(io::ErrorKind::OutOfMemory));
    };
    let message = [0x41; 1_032];
    let mut taken = 0u64;
    for _ in 0..count {
        if sides.carry(&message[..octets as usize]) {
            taken = taken.saturating_add(1);
        }
    }
    let given = sides.given();
    drop(sides);
    println!(rt; "{taken} messages of {octets} octets, {given} TPDUs")
}
