//! The calls on ranges: the interval of each operation.

use std::test::Fail;
use tap_base::Range;

/// The least number of 64 bits, and the greatest.
const LEAST: i64 = i64::MIN;

const MOST: i64 = i64::MAX;

fn range(lo: i64, hi: i64) -> Range {
    Range { lo, hi }
}

#[test]
fn sums_differences_and_products(rt: HostRuntime) -> Result<(), Fail> {
    let table = [
        ("a sum", range(-1, 2).add(range(10, 20)), Some(range(9, 22))),
        (
            "the greatest sum",
            range(0, MOST - 1).add(range(0, 1)),
            Some(range(0, MOST)),
        ),
        ("a sum too great", range(0, MOST).add(range(0, 1)), None),
        ("a sum too small", range(LEAST, 0).add(range(-1, 0)), None),
        (
            "a difference",
            range(-1, 2).sub(range(10, 20)),
            Some(range(-21, -8)),
        ),
        (
            "a difference too great",
            range(0, MOST).sub(range(-1, 0)),
            None,
        ),
        (
            "a difference too small",
            range(-2, 0).sub(range(0, MOST)),
            None,
        ),
        ("a negation", range(-1, 2).neg(), Some(range(-2, 1))),
        (
            "the negation of the least number",
            range(LEAST, 0).neg(),
            None,
        ),
        (
            "the negation of the greatest number",
            range(0, MOST).neg(),
            Some(range(-MOST, 0)),
        ),
        (
            "a product of both signs",
            range(-2, 3).mul(range(-9, 9)),
            Some(range(-27, 27)),
        ),
        (
            "a product of negative numbers",
            range(-3, -2).mul(range(-5, -4)),
            Some(range(8, 15)),
        ),
        (
            "a product with 0",
            range(0, 0).mul(range(LEAST, MOST)),
            Some(range(0, 0)),
        ),
        (
            "a product too great",
            range(1, 4294967296).mul(range(1, 2147483648)),
            None,
        ),
        (
            "the least product",
            range(1, 4294967296).mul(range(-2147483648, 1)),
            Some(range(LEAST, 4294967296)),
        ),
    ];
    for (name, found, wanted) in table {
        assert!(rt; found == wanted, "{name}: {found:?}");
    }
    Ok(())
}

#[test]
fn quotients_and_remainders(rt: HostRuntime) -> Result<(), Fail> {
    let table = [
        (
            "a quotient",
            range(2, 9).div(range(1, 3)),
            Some(range(0, 9)),
        ),
        (
            "a quotient towards the lesser number",
            range(-7, 7).div(range(2, 2)),
            Some(range(-4, 3)),
        ),
        (
            "a quotient by negative numbers",
            range(0, 9).div(range(-3, -1)),
            Some(range(-9, 0)),
        ),
        (
            "a quotient of both signs",
            range(-9, 9).div(range(-2, -2)),
            Some(range(-4, 5)),
        ),
        ("a divisor from 0", range(1, 9).div(range(0, 3)), None),
        ("a divisor up to 0", range(1, 9).div(range(-3, 0)), None),
        ("a divisor round 0", range(1, 9).div(range(-3, 3)), None),
        (
            "the least number by -1",
            range(LEAST, 0).div(range(-1, -1)),
            None,
        ),
        (
            "the least number by -2",
            range(LEAST, 0).div(range(-2, -2)),
            Some(range(0, 4611686018427387904)),
        ),
        (
            "all remainders",
            range(-5, 5).rem(range(7, 7)),
            Some(range(0, 6)),
        ),
        (
            "a small dividend",
            range(2, 5).rem(range(6, 9)),
            Some(range(2, 5)),
        ),
        (
            "a dividend that reaches the divisor",
            range(2, 6).rem(range(6, 9)),
            Some(range(0, 8)),
        ),
        (
            "negative divisors",
            range(2, 6).rem(range(-9, -7)),
            Some(range(2, 6)),
        ),
        (
            "a remainder by 1",
            range(-5, 5).rem(range(1, 1)),
            Some(range(0, 0)),
        ),
        (
            "a remainder by the least number",
            range(-5, 5).rem(range(LEAST, LEAST)),
            Some(range(0, MOST)),
        ),
        ("a remainder by 0", range(2, 5).rem(range(0, 9)), None),
    ];
    for (name, found, wanted) in table {
        assert!(rt; found == wanted, "{name}: {found:?}");
    }
    Ok(())
}

#[test]
fn the_lesser_and_the_greater(rt: HostRuntime) -> Result<(), Fail> {
    let table = [
        (
            "the lesser of ranges apart",
            range(1, 2).min(range(5, 9)),
            Some(range(1, 2)),
        ),
        (
            "the lesser of one within the other",
            range(3, 4).min(range(1, 9)),
            Some(range(1, 4)),
        ),
        (
            "the greater of ranges apart",
            range(1, 2).max(range(5, 9)),
            Some(range(5, 9)),
        ),
        (
            "the greater of one within the other",
            range(3, 4).max(range(1, 9)),
            Some(range(3, 9)),
        ),
        (
            "the lesser of all numbers",
            range(LEAST, MOST).min(range(0, 0)),
            Some(range(LEAST, 0)),
        ),
        (
            "the greater of all numbers",
            range(LEAST, MOST).max(range(0, 0)),
            Some(range(0, MOST)),
        ),
    ];
    for (name, found, wanted) in table {
        assert!(rt; found == wanted, "{name}: {found:?}");
    }
    Ok(())
}
