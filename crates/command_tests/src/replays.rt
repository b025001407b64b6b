//! The command `replay`.

use super::cases::{Row, all_end, check};
use super::texts::{PING, USAGE};
use std::test::Fail;
use tapc_core::Status;

const REPLAY: &[&str] = &["replay", "s", "t", "a.first=4"];

/// A trace, judged: its name, its text, the status, and the line.
type Trial = (&'static str, &'static [u8], Status, &'static [u8]);

/// All of them.
fn trials() -> [Trial; 12] {
    [
        (
            "a run",
            b"tick a 0\nact a 0\nsent b 04\narrive a b\ntick b 2\nact b 0\nvar a k 1\nvar b seen 4\nend\n",
            Status::Done,
            b"run\n",
        ),
        (
            "no label",
            b"var a k 0\nvar b seen 0\nend\n",
            Status::Done,
            b"run\n",
        ),
        (
            "no last line feed",
            b"var a k 0\nvar b seen 0\nend",
            Status::Done,
            b"run\n",
        ),
        ("nothing", b"", Status::BadSchedule, b"bad line 1\n"),
        (
            "no end",
            b"var a k 0\nvar b seen 0\n",
            Status::BadSchedule,
            b"bad line 3\n",
        ),
        (
            "a line behind the end",
            b"var a k 0\nvar b seen 0\nend\nend\n",
            Status::BadSchedule,
            b"bad line 4\n",
        ),
        (
            "no line",
            b"tick a 0\nact\n",
            Status::BadSchedule,
            b"bad line 2\n",
        ),
        (
            "another datagram",
            b"tick a 0\nact a 0\nsent b 05\nvar a k 1\nvar b seen 0\nend\n",
            Status::NotARun,
            b"not a run: line 3\n",
        ),
        (
            "a datagram left out",
            b"tick a 0\nact a 0\nvar a k 1\nvar b seen 0\nend\n",
            Status::NotARun,
            b"not a run: line 3\n",
        ),
        (
            "another value",
            b"tick a 0\nact a 0\nsent b 04\nvar a k 0\nvar b seen 0\nend\n",
            Status::NotARun,
            b"not a run: line 4\n",
        ),
        (
            "no action is enabled",
            b"act b 0\nvar a k 0\nvar b seen 0\nend\n",
            Status::NotARun,
            b"not a run: line 1\n",
        ),
        (
            "idle while an action is enabled",
            b"tick a 0\nidle a\nvar a k 0\nvar b seen 0\nend\n",
            Status::NotARun,
            b"not a run: line 2\n",
        ),
    ]
}

#[test]
fn traces_are_judged(rt: HostRuntime) -> Result<(), Fail> {
    for (name, trace, status, line) in trials() {
        check(&rt, rt.alloc(), (name, REPLAY, status, line), PING, trace)?;
    }
    Ok(())
}

/// Words, and what they write where the trace is that of no event.
#[test]
fn words_are_judged(rt: HostRuntime) -> Result<(), Fail> {
    let rows: [Row; 8] = [
        (
            "another input",
            &["replay", "s", "t", "a.first=5"],
            Status::Done,
            b"run\n",
        ),
        (
            "no input",
            &["replay", "s", "t"],
            Status::Refused,
            b"refused I3 a.first\n",
        ),
        (
            "a great input",
            &["replay", "s", "t", "a.first=10"],
            Status::Refused,
            b"refused I4 a.first\n",
        ),
        (
            "no trace",
            &["replay", "s", "u", "a.first=4"],
            Status::ReadFault,
            b"read fault\n",
        ),
        (
            "no system",
            &["replay", "u", "t", "a.first=4"],
            Status::ReadFault,
            b"read fault\n",
        ),
        (
            "a trace as a system",
            &["replay", "t", "t"],
            Status::Refused,
            b"refused S1 1:1\n",
        ),
        (
            "a seed",
            &["replay", "s", "t", "a.first=4", "seed=1"],
            Status::Usage,
            USAGE,
        ),
        ("one file", &["replay", "s"], Status::Usage, USAGE),
    ];
    all_end(
        &rt,
        rt.alloc(),
        PING,
        b"var a k 0\nvar b seen 0\nend\n",
        &rows,
    )
}
