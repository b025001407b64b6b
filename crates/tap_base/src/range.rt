//! The intervals of operations: a range with every value that operands of two ranges can give.

ghost use Rattle.std.specs.Prelude.{◌≡◌, ◌≢◌, ◌+ℤ◌, ◌-ℤ◌, ◌*ℤ◌, int_lt, neg_ℤ, pos};
ghost use Rattle.std.specs.Int.{int_div_euclid, int_max, int_min};
ghost use Rattle.tap_base.specs.Interval as spec;
ghost use Rattle.tap_base.specs.inner.Remainders.{remainders};

use crate::place::Range;

/// The range between two bounds, where both have their place in 64 bits.
fn bounded(lo: i128, hi: i128) -> Option<Range>
    ensures { result ≡ spec.bounded lo hi }
{
    let Ok(lo) = i64::try_from(lo) else {
        return None;
    };
    let Ok(hi) = i64::try_from(hi) else {
        return None;
    };
    Some(Range { lo, hi })
}

fn sum(x: i64, y: i64) -> i128
    ensures { result ≡ x +ℤ y }
{
    x as i128 + y as i128
}

fn difference(x: i64, y: i64) -> i128
    ensures { result ≡ x -ℤ y }
{
    x as i128 - y as i128
}

fn negation(x: i64) -> i128
    ensures { result ≡ neg_ℤ x }
{
    -(x as i128)
}

fn product(x: i64, y: i64) -> i128
    ensures { result ≡ x *ℤ y }
{
    x as i128 * y as i128
}

fn divided(x: i64, y: i64) -> i128
    requires { y ≢ pos 0 }
    ensures { result ≡ int_div_euclid x y }
{
    (x as i128).div_euclid(y as i128)
}

/// The quotient of a divisor that is 0, as the definition of quotients has it.
#[tactic(auto, using(crate::proofs::Ends::below_none, crate::proofs::Ends::above_none))]
fn divided_by_none(x: i64) -> i128
    ensures { result ≡ int_div_euclid x (pos 0) }
{
    if x < 0 { -1 } else { 0 }
}

/// Euclid's quotient. Where bounds are in order, no range that misses 0 has an end that is 0.
fn quotient(x: i64, y: i64) -> i128
    ensures { result ≡ int_div_euclid x y }
{
    if y == 0 {
        divided_by_none(x)
    } else {
        divided(x, y)
    }
}

fn lesser(x: i64, y: i64) -> i128
    ensures { result ≡ int_min x y }
{
    x.min(y) as i128
}

fn greater(x: i64, y: i64) -> i128
    ensures { result ≡ int_max x y }
{
    x.max(y) as i128
}

fn least(x: i128, y: i128) -> i128
    ensures { result ≡ int_min x y }
{
    x.min(y)
}

fn greatest(x: i128, y: i128) -> i128
    ensures { result ≡ int_max x y }
{
    x.max(y)
}

/// From the least to the greatest of four numbers.
fn spanned(w: i128, x: i128, y: i128, z: i128) -> Option<Range>
    ensures { result ≡ spec.spanned w x y z }
{
    let low = least(w, x);
    let lower = least(y, z);
    let lo = least(low, lower);
    let high = greatest(w, x);
    let higher = greatest(y, z);
    let hi = greatest(high, higher);
    bounded(lo, hi)
}

/// The interval of the quotients, wherever 0 is.
fn quotients(a: Range, b: Range) -> Option<Range>
    ensures { result ≡ spec.spanned (int_div_euclid a.lo b.lo) (int_div_euclid a.lo b.hi) (int_div_euclid a.hi b.lo) (int_div_euclid a.hi b.hi) }
{
    let w = quotient(a.lo, b.lo);
    let x = quotient(a.lo, b.hi);
    let y = quotient(a.hi, b.lo);
    let z = quotient(a.hi, b.hi);
    spanned(w, x, y, z)
}

fn is_below(x: i64, n: u64) -> bool
    ensures { result ≡ int_lt x (pos n) }
{
    x < 0 || (x as u64) < n
}

/// All numbers from 0 that are less than this one.
fn below(n: u64) -> Option<Range>
    ensures { result ≡ spec.bounded (pos 0) (pos n -ℤ pos 1) }
{
    bounded(0, n as i128 - 1)
}

/// The dividend's own interval where every divisor is greater, else that of all remainders.
fn remainders(a: Range, b: Range) -> Option<Range>
    ensures { result ≡ remainders a b }
{
    let low = b.lo.unsigned_abs();
    let high = b.hi.unsigned_abs();
    if 0 <= a.lo && is_below(a.hi, low.min(high)) {
        return Some(a);
    }
    below(low.max(high))
}

impl Range {
    /// Whether 0 is one of its numbers.
    pub fn has_zero(self) -> bool
        ensures { result ≡ spec.has_zero self }
    {
        self.lo <= 0 && 0 <= self.hi
    }

    /// The interval of a sum; `None` exactly where a bound leaves the signed 64-bit range.
    pub fn add(self, other: Range) -> Option<Range>
        ensures { result ≡ spec.sum_range self other }
    {
        let lo = sum(self.lo, other.lo);
        let hi = sum(self.hi, other.hi);
        bounded(lo, hi)
    }

    /// The interval of a difference; `None` exactly where a bound leaves the signed 64-bit range.
    pub fn sub(self, other: Range) -> Option<Range>
        ensures { result ≡ spec.difference_range self other }
    {
        let lo = difference(self.lo, other.hi);
        let hi = difference(self.hi, other.lo);
        bounded(lo, hi)
    }

    /// The interval of the numbers with the other sign; `None` exactly where a bound leaves the
    /// signed 64-bit range.
    pub fn neg(self) -> Option<Range>
        ensures { result ≡ spec.negation_range self }
    {
        let lo = negation(self.hi);
        let hi = negation(self.lo);
        bounded(lo, hi)
    }

    /// The interval of a product; `None` exactly where a bound leaves the signed 64-bit range.
    pub fn mul(self, other: Range) -> Option<Range>
        ensures { result ≡ spec.product_range self other }
    {
        let w = product(self.lo, other.lo);
        let x = product(self.lo, other.hi);
        let y = product(self.hi, other.lo);
        let z = product(self.hi, other.hi);
        spanned(w, x, y, z)
    }

    /// The interval of Euclid's quotient; `None` exactly where the divisor's range has 0 or a bound
    /// leaves the signed 64-bit range.
    pub fn div(self, other: Range) -> Option<Range>
        ensures { result ≡ spec.quotient_range self other }
    {
        if other.has_zero() {
            return None;
        }
        quotients(self, other)
    }

    /// The interval of Euclid's remainder; `None` exactly where the divisor's range has 0, or a
    /// bound leaves the signed 64-bit range.
    pub fn rem(self, other: Range) -> Option<Range>
        ensures { result ≡ spec.remainder_range self other }
    {
        if other.has_zero() {
            return None;
        }
        remainders(self, other)
    }

    /// The interval of the lesser of two numbers, which never leaves the signed 64-bit range.
    pub fn min(self, other: Range) -> Option<Range>
        ensures { result ≡ spec.min_range self other }
    {
        let lo = lesser(self.lo, other.lo);
        let hi = lesser(self.hi, other.hi);
        bounded(lo, hi)
    }

    /// The interval of the greater of two numbers, which never leaves the signed 64-bit range.
    pub fn max(self, other: Range) -> Option<Range>
        ensures { result ≡ spec.max_range self other }
    {
        let lo = greater(self.lo, other.lo);
        let hi = greater(self.hi, other.hi);
        bounded(lo, hi)
    }
}
