//! A bounded exhaustive run over TPDUs: reads octets by the million, writes each TPDU that was read
//! and isn't ER, reads that again, and prints how many answers of each kind there were.
//!
//! Its one argument is the distance between the values that an octet goes through: 1 for all of them.
//! The proofs of x224_tpdu say what each answer is; this run looks at what the compiled code does.

#![tactic(auto)]

mod counts;
mod sweep;
mod table;

use crate::sweep::Sweep;
use std::{env, io};

fn main(rt: HostRuntime) -> io::Result<()> {
    let mut words = env::args(&rt)?;
    let _program = words.next();
    let step = words
        .next()
        .and_then(|word| word.parse::<u8>().ok())
        .unwrap_or(0);
    if step == 0 {
        eprintln!(rt; "usage: test_tpdus STEP, where STEP is 1 to 255")?;
        return Err(io::Error::from(io::ErrorKind::InvalidInput));
    }
    let Some(mut sweep) = Sweep::new(rt.alloc(), step) else {
        return Err(io::Error::from(io::ErrorKind::OutOfMemory));
    };
    sweep.short_tpdus();
    sweep.tpdus_of_twelve();
    println!(rt; "{}", sweep.counts())
}
