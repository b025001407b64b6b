//! Long lines.

ghost use Rattle.std.specs.Prelude.{◌≤◌};

use crate::opened::{gives, opened, stays};
use std::alloc::Global;
use std::process::Abort;
use std::test::Fail;
use store_lines::{Lines, NextLine};

/// A line of so many bytes, and a last one of one byte.
fn check(rt: &impl Abort, alloc: Global, count: usize, piece: u32) -> Result<(), Fail>
    requires { 1 ≤ piece }
{
    let line = vec![in alloc; b'x'; count]?;
    let mut text = Vec::from_slice(alloc, line.as_slice())?;
    text.extend_from_slice(b"\ny")?;
    let mut store = opened(alloc, text.as_slice(), piece)?;
    let mut lines = Lines::new(alloc)?;
    gives(rt, &mut lines, &mut store, 1, line.as_slice())?;
    gives(rt, &mut lines, &mut store, 2, b"y")?;
    stays(rt, &mut lines, &mut store, 2, NextLine::End)
}

#[test]
fn a_line_may_be_longer_than_a_piece(rt: HostRuntime) -> Result<(), Fail> {
    for piece in [1, 3, 4096, 5000] {
        check(&rt, rt.alloc(), 10_000, piece)?;
    }
    Ok(())
}

#[test]
fn a_line_may_be_as_long_as_a_piece(rt: HostRuntime) -> Result<(), Fail> {
    check(&rt, rt.alloc(), 4095, 4096)?;
    check(&rt, rt.alloc(), 4096, 4096)?;
    check(&rt, rt.alloc(), 4097, 4096)
}
