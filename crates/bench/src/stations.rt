//! Two stations wired to each other: the calling one hands payloads down as fast as the window lets it, and the called one takes them.
//! Prints how many were taken, how many frames each of the two sent, how many of these were lost, and how often T1 had to go by.
//!
//! The n-th frame of a direction is lost or not by the line's seed alone, with stations of either kind.

mod end;
mod loss;
mod measured;
mod wire;

ghost use Rattle.std.specs.Prelude.{◌*◌, ◌≤◌, ◌≡◌, true};
ghost use Rattle.hdlc_station.specs.Stations.{is_selective_reject};

use crate::numbers::Numbers;
use crate::stations::measured::Measured;
use crate::stations::wire::{T1, Totals, Wire};
use er_base::NoMemory;
use er_settings::Settings;
use hdlc_station::Reject;
use std::alloc::Global;
use std::io;

/// What is to be run.
#[derive(Drop)]
struct Plan {
    length: u64,
    of_hundred: u64,
    seed: u64,
    payloads: u64,
}

impl Plan {
    // Runs it over a wire. Four rounds a payload are more than it takes where the line loses up to ten frames of a hundred: fewer
    // payloads are taken then only where the link was released.
    fn run(&self, alloc: Global, calling: Measured, called: Measured) -> Result<Totals, NoMemory> {
        let mut wire = Wire::new(alloc, calling, called, self.seed, self.of_hundred)?;
        let payload = [0x55; 1026];
        let length = self.length.min(1026) as usize;
        let rounds = self.payloads.saturating_mul(4).saturating_add(100);
        Ok(wire.run(&payload[..length], self.payloads, rounds))
    }

    // Makes both stations, and runs it.
    fn measure(
        &self,
        alloc: Global,
        settings: &Settings,
        reject: Reject,
    ) -> Result<Totals, NoMemory>
        requires { is_selective_reject reject ≡ true → 2 * settings.now.window ≤ settings.now.modulo }
    {
        let calling = Measured::calling(alloc, settings, reject)?;
        match Measured::called(alloc, settings, reject) {
            Ok(called) => self.run(alloc, calling, called),
            Err(refused) => {
                drop(calling);
                Err(refused)
            }
        }
    }
}

/// Measures two stations, with selective reject or with go-back.
pub fn measure(rt: HostRuntime, selective: bool, numbers: &Numbers) -> io::Result<()> {
    let [length, modulo, window, of_hundred, seed, payloads] = numbers.or([
        114, 128, 31, 10, 1, 2_000,
    ]);
    let settings = if modulo == 128 {
        Settings::extended(window, 15, 128, T1, 10, 40_000)
    } else {
        Settings::new(window, 15, 128, T1, 10, 40_000)
    };
    let Ok(settings) = settings else {
        return Err(io::Error::from(io::ErrorKind::InvalidInput));
    };
    let plan = Plan {
        length,
        of_hundred,
        seed,
        payloads,
    };
    let totals = if !selective {
        plan.measure(rt.alloc(), &settings, Reject::GoBack)
    } else if settings.window <= settings.modulo / 2 {
        plan.measure(rt.alloc(), &settings, Reject::Selective)
    } else {
        return Err(io::Error::from(io::ErrorKind::InvalidInput));
    };
    let Ok(totals) = totals else {
        return Err(io::Error::from(io::ErrorKind::OutOfMemory));
    };
    println!(rt;
        "taken {} forth {} back {} lost {} waits {}",
        totals.taken, totals.forth, totals.back, totals.lost, totals.waits
    )
}
