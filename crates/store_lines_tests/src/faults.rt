//! Calls of the store that fail.

use crate::opened::{gives, opened, stays};
use link_trait::Store;
use std::test::Fail;
use store_lines::{Lines, NextLine};

#[test]
fn a_fault_is_answered_again(rt: HostRuntime) -> Result<(), Fail> {
    let mut store = opened(rt.alloc(), b"ab\ncd\n", 3)?;
    store.fail(3)?;
    let mut lines = Lines::new(rt.alloc())?;
    gives(&rt, &mut lines, &mut store, 1, b"ab")?;
    stays(&rt, &mut lines, &mut store, 1, NextLine::ReadFault)?;
    assert_eq!(rt; lines.line(), b"".as_slice());
    let mut buf = [0u8; 8];
    assert_eq!(rt; store.read(&mut buf), Ok(3));
    assert_eq!(rt; &buf[..3], b"cd\n".as_slice());
    Ok(())
}

#[test]
fn half_a_line_is_none(rt: HostRuntime) -> Result<(), Fail> {
    let mut store = opened(rt.alloc(), b"ab", 1)?;
    store.fail(3)?;
    let mut lines = Lines::new(rt.alloc())?;
    stays(&rt, &mut lines, &mut store, 0, NextLine::ReadFault)?;
    assert_eq!(rt; lines.line(), b"".as_slice());
    Ok(())
}

#[test]
fn lines_that_were_read_come_before_a_fault(rt: HostRuntime) -> Result<(), Fail> {
    let mut store = opened(rt.alloc(), b"a\nb\n\ncd", 6)?;
    store.fail(3)?;
    let mut lines = Lines::new(rt.alloc())?;
    gives(&rt, &mut lines, &mut store, 1, b"a")?;
    gives(&rt, &mut lines, &mut store, 2, b"b")?;
    gives(&rt, &mut lines, &mut store, 3, b"")?;
    stays(&rt, &mut lines, &mut store, 3, NextLine::ReadFault)
}
