//! Clocks of the time since 1970, and of the time since a start.
ghost use Rattle.std.specs.Duration.{as_nanos};
ghost use Rattle.std.specs.Prelude.{◌≡◌, ◌-◌, ◌^◌, min, ⊤};
ghost use Rattle.span_stream.specs.Clocks.{latest_of_day, latest_since};

use span_times::Now;
use std::time::{Clock, Duration};

/// The runtime's time since 1970. Where that goes back, or can't be read, this clock stands still.
#[derive(Drop)]
pub struct Utc<C> {
    clock: C,
    latest: u64,
}

impl<C: Clock> Utc<C> {
    /// Reads this clock from now on.
    pub fn new(clock: C) -> Utc<C>
        ensures { latest_of_day result ≡ 0 }
    {
        Utc { clock, latest: 0 }
    }
}

impl<C: Clock> Now for Utc<C> {
    ghost latest = { latest_of_day };

    ghost gives = { λ c t d. ⊤ };

    fn now(&mut self) -> u64 {
        if let Ok(time) = self.clock.since_1970() {
            self.latest = nanos(time).max(self.latest);
        }
        self.latest
    }
}

/// The runtime's time since this clock was made. Where the runtime's clock goes back, or can't be
/// read, this one stands still.
#[derive(Drop)]
pub struct Uptime<C> {
    clock: C,
    start: u64,
    latest: u64,
}

impl<C: Clock> Uptime<C> {
    /// A clock that begins now; where the runtime's can't be read, at the 0 of that.
    pub fn new(clock: C) -> Uptime<C>
        ensures { latest_since result ≡ 0 }
    {
        let start = match clock.monotonic() {
            Ok(time) => nanos(time),
            Err(_) => 0,
        };
        Uptime {
            clock,
            start,
            latest: 0,
        }
    }
}

impl<C: Clock> Now for Uptime<C> {
    ghost latest = { latest_since };

    ghost gives = { λ c t d. ⊤ };

    fn now(&mut self) -> u64 {
        if let Ok(time) = self.clock.monotonic() {
            let since = nanos(time).saturating_sub(self.start);
            self.latest = since.max(self.latest);
        }
        self.latest
    }
}

/// A duration in nanoseconds, as far as a `u64` goes.
fn nanos(time: Duration) -> u64
    ensures { result ≡ min (as_nanos time) (2 ^ 64 - 1) }
{
    u64::try_from(time.as_nanos()).unwrap_or(u64::MAX)
}
