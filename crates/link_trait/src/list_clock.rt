//! A clock in memory.

ghost use Rattle.std.specs.Prelude.{◌≡◌, ◌+◌, ℕ, Some, IfOk, IfSome, drop};
ghost use Rattle.link_trait.specs.Clock.{all_to_come, reading_at};

use crate::clock::Clock;
use std::alloc::Global;
use std::collections::VecDeque;
use std::marker::Model;
use tap_base::NoMemory;

/// A clock that gives a list of readings, and then the last of them again and again, or 0.
#[derive(Debug, Drop)]
pub struct ListClock {
    left: VecDeque<u64>,
    last: u64,
}

impl Model for ListClock {
    ghost use Rattle.link_trait.specs.Clock.{Readings};

    ghost Value = { Readings };

    ghost view = { λ c. record { left = c.left.items; last = c.last } };
}

impl ListClock {
    /// A clock with these readings.
    pub fn new(alloc: Global, readings: &[u64]) -> Result<ListClock, NoMemory>
        ensures { IfOk result (λ c. c ≡ all_to_come readings.now) }
    {
        Ok(ListClock {
            left: VecDeque::from(Vec::from_slice(alloc, readings)?),
            last: readings.last().copied().unwrap_or(0),
        })
    }
}

impl Clock for ListClock {
    ghost coming = { λ c k. Some (reading_at c k) };

    ghost faults = { λ c. 0 };

    fn now(&mut self) -> u64
        ensures reading { result ≡ reading_at self.old 0 }
        ensures taken { self.new ≡ record self.old { left = drop 1 self.old.left } }
        ensures first { IfSome (Some (reading_at self.old 0)) (λ reading. result ≡ reading) }
        ensures rest { (k : ℕ) → Some (reading_at self.new k) ≡ Some (reading_at self.old (k + 1)) }
        ensures cause { ◌≡◌ {A = ℕ} 0 0 }
    {
        self.left.pop_front().unwrap_or(self.last)
    }
}
