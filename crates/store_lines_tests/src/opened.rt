//! Stores whose contents are begun, and what is asked of their lines.

ghost use Rattle.std.specs.Prelude.{◌≤◌};

use link_trait::{MemoryStore, Store};
use std::alloc::Global;
use std::process::Abort;
use std::test::Fail;
use store_lines::{Lines, NextLine};

/// A store that gives these bytes, at most so many at a time. One call of it was made.
pub(crate) fn opened(alloc: Global, bytes: &[u8], piece: u32) -> Result<MemoryStore, Fail>
    requires { 1 ≤ piece }
{
    let mut store = MemoryStore::new(alloc, piece);
    store.add("f", bytes)?;
    store.begin("f")?;
    Ok(store)
}

/// The next line is this one.
pub(crate) fn gives(
    rt: &impl Abort,
    lines: &mut Lines,
    store: &mut MemoryStore,
    number: u64,
    line: &[u8],
) -> Result<(), Fail> {
    assert_eq!(rt; lines.next(store), NextLine::Line, "line {number}");
    assert_eq!(rt; lines.line(), line, "line {number}");
    assert_eq!(rt; lines.number(), number);
    Ok(())
}

/// Line after line is asked for, and this is answered each time. No further line was given.
pub(crate) fn stays(
    rt: &impl Abort,
    lines: &mut Lines,
    store: &mut MemoryStore,
    number: u64,
    answer: NextLine,
) -> Result<(), Fail> {
    for _ in 0..3 {
        assert_eq!(rt; lines.next(store), answer);
        assert_eq!(rt; lines.number(), number);
    }
    Ok(())
}
