//! Each call of the store and each put may fail.

use super::cases::{CALM, CHECK, Case, PRINT, WORLD, check};
use super::printed::{CLOSE, LOOSE};
use super::texts::COUNTER;
use std::alloc::Global;
use std::process::Abort;
use std::test::Fail;
use tapc_core::Status;

/// A command: its name, the words, the system, how many calls of the store it makes, what is written before each of
/// its puts, the status, and all that is written.
type Row = (
    &'static str,
    &'static [&'static str],
    &'static [u8],
    u64,
    &'static [&'static [u8]],
    Status,
    &'static [u8],
);

/// All of them. Each file is begun, read, and read to its end.
fn rows() -> [Row; 6] {
    [
        (
            "world",
            WORLD,
            COUNTER,
            6,
            &[b"", b"tick a 0\nact a 0\n"],
            Status::Done,
            b"tick a 0\nact a 0\nvar a k 1\nend\n",
        ),
        (
            "world of a text that is refused",
            WORLD,
            b"$",
            3,
            &[b""],
            Status::Refused,
            b"refused L1 1:1\n",
        ),
        (
            "world with a setting that is refused",
            &["world", "s", "t", "a.x=1"],
            COUNTER,
            3,
            &[b""],
            Status::Refused,
            b"refused I1 a.x\n",
        ),
        (
            "check",
            CHECK,
            COUNTER,
            3,
            &[b""],
            Status::Done,
            b"accepted\nprocess a 1 5\n",
        ),
        (
            "check of a text that is refused",
            CHECK,
            b"$",
            3,
            &[b""],
            Status::Refused,
            b"refused L1 1:1\n",
        ),
        ("print", PRINT, LOOSE, 3, &[b""], Status::Done, CLOSE),
    ]
}

/// The command fails at each of its calls and puts, and at no later one.
fn check_faults(rt: &impl Abort, alloc: Global, row: &Row) -> Result<(), Fail> {
    let (name, words, system, calls, fronts, status, lines) = *row;
    let case = Case {
        name,
        words,
        system,
        schedule: b"turn a 0\n",
        status,
        lines,
        ..CALM
    };
    for failing_call in 1..=calls {
        let failing = Case {
            failing_call,
            ..case
        };
        check_read_fault(rt, alloc, &failing)?;
    }
    for (at, front) in fronts.iter().enumerate() {
        let failing_put = at as u64 + 1;
        let failing = Case {
            failing_put,
            lines: front,
            ..case
        };
        check_write_fault(rt, alloc, &failing)?;
    }
    let failing_call = calls.saturating_add(1);
    let failing_put = fronts.len() as u64 + 1;
    let unharmed = Case {
        failing_call,
        failing_put,
        ..case
    };
    check(rt, alloc, &unharmed)
}

/// A read fault is told, and where that is not put it is a write fault.
fn check_read_fault(rt: &impl Abort, alloc: Global, case: &Case) -> Result<(), Fail> {
    let name = format!(in alloc; "{}, where call {} fails", case.name, case.failing_call)?;
    let failed = Case {
        name: name.as_str(),
        status: Status::ReadFault,
        lines: b"read fault\n",
        ..*case
    };
    check(rt, alloc, &failed)?;
    let untold = Case {
        failing_put: 1,
        status: Status::WriteFault,
        lines: b"",
        ..failed
    };
    check(rt, alloc, &untold)
}

/// What was written before the put stays.
fn check_write_fault(rt: &impl Abort, alloc: Global, case: &Case) -> Result<(), Fail> {
    let name = format!(in alloc; "{}, where put {} fails", case.name, case.failing_put)?;
    let failed = Case {
        name: name.as_str(),
        status: Status::WriteFault,
        ..*case
    };
    check(rt, alloc, &failed)
}

#[test]
fn each_call_of_the_outside_may_fail(rt: HostRuntime) -> Result<(), Fail> {
    for row in &rows() {
        check_faults(&rt, rt.alloc(), row)?;
    }
    Ok(())
}
