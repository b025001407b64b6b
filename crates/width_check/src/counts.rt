//! Counts that stop where an action is refused.

ghost use Rattle.std.specs.Prelude.{◌≡◌, ◌+◌, ◌*◌};
ghost use Rattle.width_check.specs.inner.Capped.{capped};

/// One more than an action may cost.
pub(crate) const MOST: u32 = 1_000_001;

pub(crate) fn plus(a: u32, b: u32) -> u32
    ensures { result ≡ capped (a + b) }
{
    a.saturating_add(b).min(MOST)
}

pub(crate) fn times(count: u32, a: u32) -> u32
    ensures { result ≡ capped (count * a) }
{
    (count as u64 * a as u64).min(MOST as u64) as u32
}
