//! The machine's clock.

ghost use Rattle.std.specs.Prelude.{◌≡◌, None, unwrap_or};

use link_trait::Clock;
use std::time::Instant;

/// The machine's clock, in milliseconds since it was made. Where the machine gives no time, the last reading comes
/// again, or 0. Nothing is told of what is still to come.
#[derive(Drop)]
pub struct MachineClock {
    rt: HostRuntime,
    start: Option<Instant>,
    last: u64,
}

impl MachineClock {
    /// A clock that counts from now on.
    pub fn new(rt: HostRuntime) -> MachineClock {
        MachineClock {
            rt,
            start: Instant::now(&rt).ok(),
            last: 0,
        }
    }

    /// The milliseconds since the start, where the machine gives a time.
    fn passed(&self) -> Option<u64> {
        let passed = self.start?.elapsed(&self.rt).ok()?;
        u64::try_from(passed.as_millis()).ok()
    }

    /// The reading of this moment, where there is one, or else the last reading again.
    fn reading(&mut self, passed: Option<u64>) -> u64
        ensures reading { result ≡ unwrap_or passed self.old.last }
        ensures kept { self.new.last ≡ result }
    {
        self.last = passed.unwrap_or(self.last);
        self.last
    }
}

impl Clock for MachineClock {
    ghost coming = { λ c k. None };

    ghost faults = { λ c. 0 };

    fn now(&mut self) -> u64 {
        let passed = self.passed();
        self.reading(passed)
    }
}
