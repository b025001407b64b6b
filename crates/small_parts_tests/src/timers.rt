//! Timers, and the time of a process.

use std::test::Fail;
use timer_core::Timers;

/// A timer of 200 ms that is armed after a reading of 0 is due from 215 on, once a reading of 15 has dated it.
#[test]
fn armed_dated_due_and_stopped(rt: HostRuntime) -> Result<(), Fail> {
    let mut timers = Timers::new(rt.alloc(), 2)?;
    timers.tick(0);
    timers.start(1, 200);
    assert_eq!(rt; timers.next_due(), None);
    timers.tick(15);
    assert_eq!(rt; timers.next_due(), Some(215));
    timers.tick(214);
    assert!(rt; !timers.due(1));
    timers.tick(215);
    assert!(rt; timers.due(1) && !timers.due(0));
    timers.stop(1);
    assert!(rt; !timers.due(1));
    assert_eq!(rt; timers.next_due(), None);
    Ok(())
}

/// The next due time is the least one, and a timer that is started anew has none until the next reading.
#[test]
fn least_due_time_and_restart(rt: HostRuntime) -> Result<(), Fail> {
    let mut timers = Timers::new(rt.alloc(), 3)?;
    timers.start(0, 30);
    timers.start(2, 10);
    timers.tick(5);
    assert_eq!(rt; timers.next_due(), Some(15));
    timers.start(2, 40);
    assert_eq!(rt; timers.next_due(), Some(35));
    timers.tick(50);
    assert!(rt; timers.due(0) && !timers.due(2));
    timers.stop(0);
    assert_eq!(rt; timers.next_due(), Some(90));
    Ok(())
}

/// A reading before the greatest one leaves the time, and a great one is no more than 2^62.
#[test]
fn greatest_reading(rt: HostRuntime) -> Result<(), Fail> {
    let mut timers = Timers::new(rt.alloc(), 0)?;
    assert_eq!(rt; timers.time(), 0);
    timers.tick(15);
    timers.tick(10);
    assert_eq!(rt; timers.time(), 15);
    timers.tick(u64::MAX);
    assert_eq!(rt; timers.time(), 1 << 62);
    Ok(())
}
