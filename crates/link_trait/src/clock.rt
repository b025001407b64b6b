//! Where the time is read.

ghost use Rattle.std.specs.Prelude.{◌≡◌, ◌+◌, ℕ, Option, IfSome};

/// A clock. Reading it can't fail.
pub trait Clock {
    /// The readings still to come, each by how many stand before it, where told.
    ghost coming: { Self → ℕ → Option ℕ };

    /// The count of faults. No call of a clock fails, so it stays.
    ghost faults: { Self → ℕ };

    /// The first of the readings still to come, which is taken.
    fn now(&mut self) -> u64
        ensures first { IfSome (coming self.old 0) (λ reading. result ≡ reading) }
        ensures rest { (k : ℕ) → coming self.new k ≡ coming self.old (k + 1) }
        ensures cause { faults self.new ≡ faults self.old };
}
