//! Whole files.

ghost use Rattle.std.specs.Prelude.{◌≤◌};

use crate::opened::{gives, opened, stays};
use std::alloc::Global;
use std::process::Abort;
use std::test::Fail;
use store_lines::{Lines, NextLine};

/// The bytes of a file, and its lines.
type Row = (&'static [u8], &'static [&'static [u8]]);

const ROWS: [Row; 8] = [
    (b"", &[]),
    (b"\n", &[b""]),
    (b"abc", &[b"abc"]),
    (b"ab\ncdefg\n", &[b"ab", b"cdefg"]),
    (b"abc\ndef\nghi", &[b"abc", b"def", b"ghi"]),
    (b"\n\na\n\n", &[b"", b"", b"a", b""]),
    (b"ab\n\n", &[b"ab", b""]),
    (b"\r\n\x00 \xff\n", &[b"\r", b"\x00 \xff"]),
];

/// The file's lines, and then the end.
fn check(rt: &impl Abort, alloc: Global, row: Row, piece: u32) -> Result<(), Fail>
    requires { 1 ≤ piece }
{
    let (bytes, expected) = row;
    let mut store = opened(alloc, bytes, piece)?;
    let mut lines = Lines::new(alloc)?;
    for (number, line) in (1..).zip(expected) {
        gives(rt, &mut lines, &mut store, number, line)?;
    }
    let count = expected.len() as u64;
    stays(rt, &mut lines, &mut store, count, NextLine::End)
}

#[test]
fn files_are_read_line_by_line(rt: HostRuntime) -> Result<(), Fail> {
    for row in ROWS {
        for piece in [1, 3, 4096] {
            check(&rt, rt.alloc(), row, piece)?;
        }
    }
    Ok(())
}

#[test]
fn nothing_was_given_at_first(rt: HostRuntime) -> Result<(), Fail> {
    let lines = Lines::new(rt.alloc())?;
    assert_eq!(rt; lines.line(), b"".as_slice());
    assert_eq!(rt; lines.number(), 0);
    Ok(())
}

#[test]
fn the_end_leaves_the_last_line(rt: HostRuntime) -> Result<(), Fail> {
    let mut store = opened(rt.alloc(), b"ab\ncd\n", 4)?;
    let mut lines = Lines::new(rt.alloc())?;
    gives(&rt, &mut lines, &mut store, 1, b"ab")?;
    gives(&rt, &mut lines, &mut store, 2, b"cd")?;
    stays(&rt, &mut lines, &mut store, 2, NextLine::End)?;
    assert_eq!(rt; lines.line(), b"cd".as_slice());
    Ok(())
}
