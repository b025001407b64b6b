//! A clock in memory.

use link_trait::{Clock, ListClock};
use std::test::Fail;

/// The next three readings of any clock.
fn three<C: Clock>(clock: &mut C) -> [u64; 3] {
    let first = clock.now();
    let second = clock.now();
    [first, second, clock.now()]
}

#[test]
fn a_clock_repeats_its_last_reading(rt: HostRuntime) -> Result<(), Fail> {
    let mut clock = ListClock::new(rt.alloc(), &[5, 3])?;
    assert_eq!(rt; three(&mut clock), [5, 3, 3]);
    assert_eq!(rt; three(&mut clock), [3, 3, 3]);
    Ok(())
}

#[test]
fn a_clock_without_readings_gives_0(rt: HostRuntime) -> Result<(), Fail> {
    let mut clock = ListClock::new(rt.alloc(), &[])?;
    assert_eq!(rt; three(&mut clock), [0, 0, 0]);
    Ok(())
}
