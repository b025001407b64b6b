//! Texts that have a bad line, or none, and stores whose reads fail.

use super::alternating_bit::{ALTERNATING_BIT, ONCE};
use super::cases::{Row, all_judged, bad, no_run, system_of};
use link_trait::{MemoryStore, Store};
use replay::{ReplayFault, check_trace};
use std::test::Fail;
use tap_settings::inputs_of;

/// A process without variables that stays where it is.
const STILL: &[u8] = b"process a begin true -> skip end";

#[test]
fn lines_are_none(rt: HostRuntime) -> Result<(), Fail> {
    let rows: [Row; 9] = [
        ("no line", b"", bad(1)),
        ("an empty line", b"\n", bad(1)),
        ("the end alone", b"end\n", Ok(())),
        ("the end without a line feed", b"end", Ok(())),
        ("an empty line behind the end", b"end\n\n", bad(2)),
        ("no text", b"\x00\xff\x80", bad(1)),
        ("a line of another system", b"tick b 0\nend\n", bad(1)),
        ("a possible step and no end", b"tick a 0\nact a 0\n", bad(3)),
        (
            "a datagram that nobody sent",
            b"tick a 0\nsent a 00\nend\n",
            no_run(2),
        ),
    ];
    all_judged(&rt, rt.alloc(), STILL, &[], &rows)
}

/// The second read fails: the first one gave a front of the trace in which no line is bad.
#[test]
fn a_read_fails(rt: HostRuntime) -> Result<(), Fail> {
    let alloc = rt.alloc();
    let system = system_of(alloc, ALTERNATING_BIT)?;
    let inputs = inputs_of(alloc, &system, ONCE)?;
    let mut store = MemoryStore::new(alloc, 16);
    store.add("t", b"tick a 0\nact a 0\nsent b 01000380\n")?;
    store.fail(3)?;
    store.begin("t")?;
    let found = check_trace(alloc, &system, &inputs, &mut store);
    assert_eq!(rt; found, Err(ReplayFault::ReadFault));
    Ok(())
}
