//! Clocks that layers own. Their readings are in nanoseconds.
ghost use Rattle.std.specs.Prelude.{◌≡◌, ℕ, ⊤};
ghost use Rattle.span_times.specs.Clock.{Reads, counts_on, latest_counted, latest_read};

use std::time::Clock;

/// A clock that a layer owns. It never goes back.
pub trait Now {
    /// The clock's latest reading.
    ghost latest: { Self → ℕ };

    /// What more is known of a reading: of which clock, which one, and which clock it leaves.
    ghost gives: { Self → ℕ → Self → Type 0 };

    /// Reads it.
    fn now(&mut self) -> u64
        ensures { Reads latest gives self.old result self.new };
}

/// The runtime's clock. Where that goes back, or can't be read, this one stands still.
#[derive(Drop)]
pub struct Wall<C> {
    clock: C,
    latest: u64,
}

impl<C: Clock> Wall<C> {
    /// Reads this clock from now on.
    pub fn new(clock: C) -> Wall<C>
        ensures { latest_read result ≡ 0 }
    {
        Wall { clock, latest: 0 }
    }
}

impl<C: Clock> Now for Wall<C> {
    ghost latest = { latest_read };

    ghost gives = { λ c t d. ⊤ };

    fn now(&mut self) -> u64 {
        if let Ok(time) = self.clock.monotonic() {
            let read = u64::try_from(time.as_nanos()).unwrap_or(u64::MAX);
            if self.latest <= read {
                self.latest = read;
            }
        }
        self.latest
    }
}

/// A clock for tests and scripts, a thousand nanoseconds later at each reading.
#[derive(Debug, Drop)]
pub struct Counted {
    latest: u64,
}

impl Counted {
    /// A clock whose first reading is 1000.
    pub fn new() -> Counted
        ensures { latest_counted result ≡ 0 }
    {
        Counted { latest: 0 }
    }
}

impl Now for Counted {
    ghost latest = { latest_counted };

    ghost gives = { counts_on };

    fn now(&mut self) -> u64 {
        self.latest = self.latest.saturating_add(1000);
        self.latest
    }
}
