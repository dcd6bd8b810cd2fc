//! The clock of the machine, which goes forward by itself.

ghost use Rattle.std.specs.Prelude.{◌≡◌, ◌≤◌, ◌^◌, max, None, IfOk, OnErr};
ghost use Rattle.std.specs.Duration.{as_nanos};
ghost use Rattle.er_serving.specs.Moments.{machine_moment, moment_since};

use er_base::MOST_MOMENT;
use link_trait::Clock;
use std::io;
use std::marker::Model;
use std::rt::Clock as SystemClock;
use std::time::Duration;

/// A clock that begins at the moment of the machine's wall clock, in milliseconds since the start of 1970, and then goes with its
/// monotonic one.
///
/// Whoever sets the wall clock later moves none of its moments. None is below an earlier one, and one above 10^15 is given as 10^15. Where
/// the monotonic clock can't be read, the last answer stands, at first the wall clock's moment; a clock that can't be read at the beginning
/// counts as 0. It tells nothing of its answers. A clause sees what both clocks read at the beginning, and the latest that the monotonic
/// one read since.
#[derive(Drop)]
pub struct MachineClock<R: SystemClock + Drop> {
    rt: R,
    wall: Duration,
    begun: Duration,
    latest: Duration,
}

impl<R: SystemClock + Drop> Model for MachineClock<R> {
    ghost use Rattle.std.specs.Duration.{as_nanos};
    ghost use Rattle.er_serving.specs.Moments.{Readings};

    ghost Value = { Readings };

    ghost view = { λ c. record { wall = as_nanos c.wall; begun = as_nanos c.begun; latest = as_nanos c.latest } };
}

impl<R: SystemClock + Drop> MachineClock<R> {
    /// A clock that begins now. It takes no memory.
    pub fn new(rt: R) -> MachineClock<R>
        ensures { result.latest ≡ result.begun }
    {
        let begun = rt.monotonic().unwrap_or(Duration::ZERO);
        let wall = rt.since_1970().unwrap_or(Duration::ZERO);
        MachineClock {
            rt,
            wall,
            begun,
            latest: begun,
        }
    }

    // The moment at which the monotonic clock reads this. Where it can't be read or went back, the last answer stands.
    fn hear(&mut self, reading: io::Result<Duration>) -> u64
        ensures read { IfOk reading (λ read. self.new ≡ record self.old { latest = max self.old.latest (as_nanos read) }) }
        ensures stands { OnErr reading (self.new ≡ self.old) }
        ensures moment { result ≡ machine_moment self.new }
    {
        if let Ok(read) = reading {
            if self.latest.checked_sub(read).is_none() {
                self.latest = read;
            }
        }
        moment_since(self.wall, self.begun, self.latest)
    }
}

// The moment at which the monotonic clock reads this, where the two clocks read `wall` and `begun` at the beginning.
fn moment_since(wall: Duration, begun: Duration, read: Duration) -> u64
    ensures { result ≡ moment_since (as_nanos wall) (as_nanos begun) (as_nanos read) }
{
    let moment = wall.saturating_add(read.saturating_sub(begun)).as_millis();
    u64::try_from(moment)
        .unwrap_or(MOST_MOMENT)
        .min(MOST_MOMENT)
}

impl<R: SystemClock + Drop> Clock for MachineClock<R> {
    ghost state = { λ _. record { answers = None } };

    fn now(&mut self) -> u64
        ensures moment { result ≡ machine_moment self.new }
        ensures begun { (self.new.wall ≡ self.old.wall) × (self.new.begun ≡ self.old.begun) }
        ensures forward { self.old.latest ≤ self.new.latest }
        ensures no_earlier { machine_moment self.old ≤ result }
        ensures most { result ≤ 10 ^ 15 }
    {
        let reading = self.rt.monotonic();
        self.hear(reading)
    }
}
