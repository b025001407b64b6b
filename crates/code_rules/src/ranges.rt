//! Ranges that lie within others.

ghost use Rattle.std.specs.Prelude.{◌≡◌, slice_get};
ghost use Rattle.tap_base.specs.Interval as interval;
ghost use Rattle.register_code.specs.Sites as sites;

use tap_base::{Op, Range, item};

/// One range lies within another.
pub fn lies_in(a: Range, b: Range) -> bool
    ensures { result ≡ sites.lies_in a b }
{
    (b.lo <= a.lo) & (a.hi <= b.hi)
}

/// Two ranges are there, and the first lies within the second.
pub fn both_in(a: Option<Range>, b: Option<Range>) -> bool
    ensures { result ≡ sites.both_in a b }
{
    match a {
        None => false,
        Some(a) => match b {
            None => false,
            Some(b) => lies_in(a, b),
        },
    }
}

/// The range of a register, where it is there.
pub fn range_at(ranges: &[Range], r: u32) -> Option<Range>
    ensures { result ≡ slice_get ranges.now r }
{
    match item(ranges, r as usize) {
        None => None,
        Some(range) => Some(*range),
    }
}

/// The interval of an operation, or nothing where a bound leaves 64 bits or a divisor may be 0.
pub(crate) fn operation_range(op: Op, a: Range, b: Range) -> Option<Range>
    ensures { result ≡ interval.operation_range op a b }
{
    match op {
        Op::Add => a.add(b),
        Op::Sub => a.sub(b),
        Op::Mul => a.mul(b),
        Op::Div => a.div(b),
        Op::Mod => a.rem(b),
        Op::Min => a.min(b),
        Op::Max => a.max(b),
        _ => Some(Range { lo: 0, hi: 1 }),
    }
}
