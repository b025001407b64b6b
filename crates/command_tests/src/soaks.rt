//! The command `soak`.

use super::cases::{Row, all_end};
use super::texts::{FLOOD, ONCE, PING, TRI, TWO, USAGE};
use std::test::Fail;
use tapc_core::Status;

/// Each action in its turn.
#[test]
fn actions_are_counted(rt: HostRuntime) -> Result<(), Fail> {
    let rows: [Row; 2] = [
        (
            "three turns",
            &["soak", "s", "7", "3", "0"],
            Status::Done,
            b"events 3\nacts 3\nsents 0\nrejects 0\nidles 0\nvoids 0\nvar a x 2\nend\n",
        ),
        (
            "no event",
            &["soak", "s", "7", "0", "0"],
            Status::Done,
            b"events 0\nacts 0\nsents 0\nrejects 0\nidles 0\nvoids 0\nvar a x 0\nend\n",
        ),
    ];
    all_end(&rt, rt.alloc(), TRI, b"", &rows)
}

/// The first turn acts, and the others are idle.
#[test]
fn idle_turns_are_counted(rt: HostRuntime) -> Result<(), Fail> {
    let rows: [Row; 1] = [(
        "four turns",
        &["soak", "s", "7", "4", "0"],
        Status::Done,
        b"events 4\nacts 1\nsents 0\nrejects 0\nidles 3\nvoids 0\nvar a x 1\nend\n",
    )];
    all_end(&rt, rt.alloc(), ONCE, b"", &rows)
}

/// The twelve events are those that `make` writes: five turns, each an action that sends two datagrams; a damage, a move
/// and three arrivals that find nothing in flight; a forgery and a loss.
fn rows() -> [Row; 8] {
    [
        (
            "four faults",
            &["soak", "s", "247", "12", "4"],
            Status::Done,
            b"events 12\nacts 5\nsents 10\nrejects 0\nidles 0\nvoids 5\nend\n",
        ),
        (
            "a reject",
            &["soak", "s", "247", "100", "30"],
            Status::Done,
            b"events 100\nacts 54\nsents 64\nrejects 1\nidles 0\nvoids 5\nend\n",
        ),
        (
            "a missing file",
            &["soak", "u", "7", "1", "0"],
            Status::ReadFault,
            b"read fault\n",
        ),
        (
            "two numbers",
            &["soak", "s", "7", "1"],
            Status::Usage,
            USAGE,
        ),
        (
            "a seed beside",
            &["soak", "s", "7", "1", "0", "seed=1"],
            Status::Usage,
            USAGE,
        ),
        (
            "a million events and one",
            &["soak", "s", "7", "1000001", "0"],
            Status::Usage,
            USAGE,
        ),
        (
            "no setting",
            &["soak", "s", "7", "1", "0", "x"],
            Status::Usage,
            USAGE,
        ),
        (
            "an unknown input",
            &["soak", "s", "7", "1", "0", "a.x=1"],
            Status::Refused,
            b"refused I1 a.x\n",
        ),
    ]
}

#[test]
fn datagrams_are_counted(rt: HostRuntime) -> Result<(), Fail> {
    all_end(&rt, rt.alloc(), TWO, b"", &rows())
}

/// An input is given, or it is missing.
#[test]
fn settings_are_judged(rt: HostRuntime) -> Result<(), Fail> {
    let rows: [Row; 2] = [
        (
            "no event",
            &["soak", "s", "7", "0", "0", "a.first=4"],
            Status::Done,
            b"events 0\nacts 0\nsents 0\nrejects 0\nidles 0\nvoids 0\nvar a k 0\nvar b seen 0\nend\n",
        ),
        (
            "a missing input",
            &["soak", "s", "7", "1", "0"],
            Status::Refused,
            b"refused I3 a.first\n",
        ),
    ];
    all_end(&rt, rt.alloc(), PING, b"", &rows)
}

/// Behind 6,334 events 99,974 datagrams stand in the channel, so that one event more is not served. The numbers were worked by
/// a world that was written apart.
#[test]
fn a_world_is_full(rt: HostRuntime) -> Result<(), Fail> {
    let rows: [Row; 2] = [
        (
            "full behind the last event",
            &["soak", "s", "7", "6334", "1000"],
            Status::Done,
            b"events 6334\nacts 3141\nsents 101632\nrejects 126\nidles 8\nvoids 0\nend\n",
        ),
        (
            "full before the last event",
            &["soak", "s", "7", "6335", "1000"],
            Status::WorldFull,
            b"full 99974\n",
        ),
    ];
    all_end(&rt, rt.alloc(), FLOOD, b"", &rows)
}
