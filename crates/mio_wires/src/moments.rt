//! The moment that it is, by a clock that nobody sets.

ghost use Rattle.std.specs.Prelude.{◌≡◌, IfOk, OnErr};
ghost use Rattle.std.specs.Duration.{as_nanos};
ghost use Rattle.mio_wires.specs.Moments.{wires_moment, wires_moment_since};

use std::io;
use std::rt::Clock;
use std::time::Duration;

// A moment in milliseconds since the start of 1970, and what the system's monotonic clock read then and read last. What time goes by is
// told by that clock alone, so that setting the wall clock moves no wait.
#[derive(Clone, Copy)]
pub struct Moments {
    begun: u64,
    first: Duration,
    read: Duration,
}

impl Moments {
    // From the wall clock's moment on. Where it can't be read, from 0 on.
    pub fn by_the_wall<R: Clock>(rt: &R) -> Moments {
        let moment = match rt.since_1970() {
            Ok(since) => u64::try_from(since.as_millis()).unwrap_or(u64::MAX),
            Err(_) => 0,
        };
        Moments::from(rt, moment)
    }

    // From this moment on, which is now.
    pub fn from<R: Clock>(rt: &R, moment: u64) -> Moments
        ensures { wires_moment result ≡ moment }
    {
        let first = rt.monotonic().unwrap_or(Duration::ZERO);
        Moments {
            begun: moment,
            first,
            read: first,
        }
    }

    // The moment that it is now. Where the system's clock can't be read, the last answer stands.
    pub fn now<R: Clock>(&mut self, rt: &R) -> u64
        ensures { result ≡ wires_moment self.new }
    {
        self.hear(rt.monotonic())
    }

    // The moment at which the system's clock reads this.
    fn hear(&mut self, reading: io::Result<Duration>) -> u64
        ensures moment { IfOk reading (λ read. result ≡ wires_moment_since self.old.begun (as_nanos self.old.first) (as_nanos read)) }
        ensures stands { OnErr reading (result ≡ wires_moment self.old) }
        ensures kept { result ≡ wires_moment self.new }
    {
        if let Ok(read) = reading {
            self.read = read;
        }
        self.moment()
    }

    // The moment at which the system's clock read what it read last.
    fn moment(&self) -> u64
        ensures { result ≡ wires_moment self.now }
    {
        let since = self.read.saturating_sub(self.first).as_millis();
        let since = u64::try_from(since).unwrap_or(u64::MAX);
        self.begun.saturating_add(since)
    }
}
