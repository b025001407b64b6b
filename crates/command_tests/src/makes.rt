//! The command `make`.

use super::cases::{Row, all_end};
use super::texts::{TRI, TWO, USAGE};
use std::test::Fail;
use tapc_core::Status;

/// Words, and what they write of a system with two channels.
fn rows() -> [Row; 16] {
    [
        ("no event", &["make", "s", "7", "0", "0"], Status::Done, b""),
        (
            "one event",
            &["make", "s", "247", "1", "0"],
            Status::Done,
            b"arrive a b\n",
        ),
        (
            "four faults",
            &["make", "s", "247", "12", "4"],
            Status::Done,
            b"forge a b e8d4eddc
damage b a 0 722030b8
move a b 1 0
turn a 46
arrive b a
arrive b a
arrive b a
turn a 75
turn b 75
turn b 85
lose a b 0
turn b 102
",
        ),
        (
            "a missing file",
            &["make", "u", "7", "1", "0"],
            Status::ReadFault,
            b"read fault\n",
        ),
        (
            "the second file",
            &["make", "t", "7", "1", "0"],
            Status::Refused,
            b"refused S1 1:1\n",
        ),
        ("no number", &["make", "s"], Status::Usage, USAGE),
        ("one number", &["make", "s", "7"], Status::Usage, USAGE),
        (
            "two numbers",
            &["make", "s", "7", "1"],
            Status::Usage,
            USAGE,
        ),
        (
            "four numbers",
            &["make", "s", "7", "1", "0", "0"],
            Status::Usage,
            USAGE,
        ),
        (
            "a setting",
            &["make", "s", "7", "1", "0", "a.x=1"],
            Status::Usage,
            USAGE,
        ),
        (
            "a million events and one",
            &["make", "s", "7", "1000001", "0"],
            Status::Usage,
            USAGE,
        ),
        (
            "a million faults and one",
            &["make", "s", "7", "0", "1000001"],
            Status::Usage,
            USAGE,
        ),
        (
            "a million faults",
            &["make", "s", "7", "0", "1000000"],
            Status::Done,
            b"",
        ),
        (
            "a zero in front",
            &["make", "s", "07", "0", "0"],
            Status::Usage,
            USAGE,
        ),
        (
            "a sign",
            &["make", "s", "+7", "0", "0"],
            Status::Usage,
            USAGE,
        ),
        (
            "a seed past 64 bits",
            &["make", "s", "18446744073709551616", "0", "0"],
            Status::Usage,
            USAGE,
        ),
    ]
}

#[test]
fn schedules_are_made(rt: HostRuntime) -> Result<(), Fail> {
    all_end(&rt, rt.alloc(), TWO, b"", &rows())
}

/// Where no process sends there is no channel, so that all events are turns.
#[test]
fn turns_alone_are_made(rt: HostRuntime) -> Result<(), Fail> {
    let rows: [Row; 2] = [
        (
            "faults are turns",
            &["make", "s", "7", "4", "5"],
            Status::Done,
            b"turn a 6\nturn a 30\nturn a 35\nturn a 70\n",
        ),
        ("no event", &["make", "s", "7", "0", "0"], Status::Done, b""),
    ];
    all_end(&rt, rt.alloc(), TRI, b"", &rows)
}
