//! The settings of `world`: words that are none, settings that are refused, and runs with inputs and a seed.

use super::cases::{CALM, Case, check};
use super::texts::{COUNTER, HELLO, INPUTS};
use std::alloc::Global;
use std::process::Abort;
use std::test::Fail;
use tapc_core::Status;

const USAGE: &[u8] = b"usage: tapc check | print | compile | world | node | replay | make | soak\n";

/// Words: the name of the row, the words, the status, and the line.
type Row = (&'static str, &'static [&'static str], Status, &'static [u8]);

/// Words behind two files, of which one is no setting.
fn words() -> [(&'static str, &'static [&'static str]); 31] {
    [
        ("nothing", &["world", "s", "t", ""]),
        ("no value", &["world", "s", "t", "a.x"]),
        ("an empty value", &["world", "s", "t", "a.x="]),
        ("no process", &["world", "s", "t", "x=1"]),
        ("an empty process", &["world", "s", "t", ".x=1"]),
        ("an empty input", &["world", "s", "t", "a.=1"]),
        ("no point", &["world", "s", "t", "ax=1"]),
        ("a zero in front", &["world", "s", "t", "a.x=01"]),
        ("a minus and 0", &["world", "s", "t", "a.x=-0"]),
        ("a plus", &["world", "s", "t", "a.x=+1"]),
        ("a blank behind the number", &["world", "s", "t", "a.x=1 "]),
        ("a second word in it", &["world", "s", "t", "a.x=1 extra"]),
        ("a digit in front of a name", &["world", "s", "t", "a.1x=1"]),
        ("two points", &["world", "s", "t", "a.x.y=1"]),
        ("two values", &["world", "s", "t", "a.x=1=1"]),
        ("too great", &["world", "s", "t", "a.x=9223372036854775808"]),
        (
            "too small",
            &["world", "s", "t", "a.x=-9223372036854775809"],
        ),
        ("no seed", &["world", "s", "t", "seed"]),
        ("an empty seed", &["world", "s", "t", "seed="]),
        ("a seed below 0", &["world", "s", "t", "seed=-1"]),
        (
            "a seed with a zero in front",
            &["world", "s", "t", "seed=01"],
        ),
        ("a seed of two zeros", &["world", "s", "t", "seed=00"]),
        ("a seed with a plus", &["world", "s", "t", "seed=+1"]),
        ("a blank behind the seed", &["world", "s", "t", "seed=1 "]),
        ("two seeds in one word", &["world", "s", "t", "seed=1=1"]),
        ("a seed in upper case", &["world", "s", "t", "Seed=1"]),
        (
            "a seed of more than 64 bits",
            &["world", "s", "t", "seed=18446744073709551616"],
        ),
        ("one seed twice", &["world", "s", "t", "seed=1", "seed=1"]),
        ("two seeds", &["world", "s", "t", "seed=1", "seed=2"]),
        (
            "two seeds around a setting",
            &["world", "s", "t", "seed=0", "a.x=1", "seed=0"],
        ),
        (
            "a seed, and a word that is no setting",
            &["world", "s", "t", "seed=1", "extra"],
        ),
    ]
}

/// Settings of a system without inputs, and words that are none of `world`.
fn undeclared() -> [Row; 21] {
    [
        (
            "an input that is not declared",
            &["world", "s", "t", "a.x=1"],
            Status::Refused,
            b"refused I1 a.x\n",
        ),
        (
            "the greatest number",
            &["world", "s", "t", "a.x=9223372036854775807"],
            Status::Refused,
            b"refused I1 a.x\n",
        ),
        (
            "the least number",
            &["world", "s", "t", "a.x=-9223372036854775808"],
            Status::Refused,
            b"refused I1 a.x\n",
        ),
        (
            "a variable",
            &["world", "s", "t", "a.k=1"],
            Status::Refused,
            b"refused I1 a.k\n",
        ),
        (
            "a process that is not declared",
            &["world", "s", "t", "b.k=1"],
            Status::Refused,
            b"refused I1 b.k\n",
        ),
        (
            "a word of the language",
            &["world", "s", "t", "end.x=1"],
            Status::Refused,
            b"refused I1 end.x\n",
        ),
        (
            "the first of two",
            &["world", "s", "t", "a.y_2=-1", "a.x=0"],
            Status::Refused,
            b"refused I1 a.y_2\n",
        ),
        (
            "one that is not declared, twice",
            &["world", "s", "t", "a.x=0", "a.x=0"],
            Status::Refused,
            b"refused I1 a.x\n",
        ),
        (
            "a setting before a schedule that is not there",
            &["world", "s", "u", "a.x=1"],
            Status::Refused,
            b"refused I1 a.x\n",
        ),
        (
            "a text that is not there",
            &["world", "u", "t", "a.x=1"],
            Status::ReadFault,
            b"read fault\n",
        ),
        (
            "a word behind a setting",
            &["world", "s", "t", "a.x=1", "extra"],
            Status::Usage,
            USAGE,
        ),
        (
            "a setting before the files",
            &["world", "a.x=1", "s", "t"],
            Status::Usage,
            USAGE,
        ),
        (
            "a setting of check",
            &["check", "s", "a.x=1"],
            Status::Usage,
            USAGE,
        ),
        (
            "a setting of print",
            &["print", "s", "a.x=1"],
            Status::Usage,
            USAGE,
        ),
        (
            "a seed of check",
            &["check", "s", "seed=1"],
            Status::Usage,
            USAGE,
        ),
        (
            "a seed of print",
            &["print", "s", "seed=1"],
            Status::Usage,
            USAGE,
        ),
        (
            "an input with the name of the seed",
            &["world", "s", "t", "seed=1", "a.seed=1"],
            Status::Refused,
            b"refused I1 a.seed\n",
        ),
        (
            "a seed for a schedule",
            &["world", "s", "seed=1"],
            Status::ReadFault,
            b"read fault\n",
        ),
        (
            "a seed of 0",
            &["world", "s", "t", "seed=0"],
            Status::Done,
            b"var a k 0\nend\n",
        ),
        (
            "a seed of 1",
            &["world", "s", "t", "seed=1"],
            Status::Done,
            b"var a k 0\nend\n",
        ),
        (
            "the greatest seed",
            &["world", "s", "t", "seed=18446744073709551615"],
            Status::Done,
            b"var a k 0\nend\n",
        ),
    ]
}

#[test]
fn other_words_are_no_setting(rt: HostRuntime) -> Result<(), Fail> {
    for (name, words) in words() {
        let case = Case {
            name,
            words,
            system: COUNTER,
            status: Status::Usage,
            lines: USAGE,
            ..CALM
        };
        check(&rt, rt.alloc(), &case)?;
    }
    Ok(())
}

/// Settings of a system with inputs: two of a, from -2 to 5 and a truth, and one of b, from 7 to 9.
fn offences() -> [Row; 16] {
    [
        (
            "no setting",
            &["world", "s", "t"],
            Status::Refused,
            b"refused I3 a.low\n",
        ),
        (
            "a seed alone",
            &["world", "s", "t", "seed=1"],
            Status::Refused,
            b"refused I3 a.low\n",
        ),
        (
            "no setting before a schedule that is not there",
            &["world", "s", "u"],
            Status::Refused,
            b"refused I3 a.low\n",
        ),
        (
            "the second is missing",
            &["world", "s", "t", "b.high=8", "a.low=0"],
            Status::Refused,
            b"refused I3 a.go\n",
        ),
        (
            "the last is missing",
            &["world", "s", "t", "a.go=1", "a.low=0"],
            Status::Refused,
            b"refused I3 b.high\n",
        ),
        (
            "the input of another process",
            &["world", "s", "t", "b.low=0"],
            Status::Refused,
            b"refused I1 b.low\n",
        ),
        (
            "a name in upper case",
            &["world", "s", "t", "a.Low=0"],
            Status::Refused,
            b"refused I1 a.Low\n",
        ),
        (
            "the same value twice",
            &["world", "s", "t", "a.low=0", "a.low=0"],
            Status::Refused,
            b"refused I2 a.low\n",
        ),
        (
            "twice, and out of range",
            &["world", "s", "t", "a.low=0", "a.low=6"],
            Status::Refused,
            b"refused I2 a.low\n",
        ),
        (
            "out of range, and then twice",
            &["world", "s", "t", "a.low=6", "a.low=0"],
            Status::Refused,
            b"refused I4 a.low\n",
        ),
        (
            "below the range",
            &["world", "s", "t", "a.low=-3"],
            Status::Refused,
            b"refused I4 a.low\n",
        ),
        (
            "no truth",
            &["world", "s", "t", "a.low=0", "a.go=2"],
            Status::Refused,
            b"refused I4 a.go\n",
        ),
        (
            "out of range, and others are missing",
            &["world", "s", "t", "b.high=6"],
            Status::Refused,
            b"refused I4 b.high\n",
        ),
        (
            "out of range before one that is not declared",
            &["world", "s", "t", "b.high=10", "c.x=0"],
            Status::Refused,
            b"refused I4 b.high\n",
        ),
        (
            "one that is not declared behind all others",
            &[
                "world", "s", "t", "a.low=5", "a.go=0", "b.high=9", "b.low=0",
            ],
            Status::Refused,
            b"refused I1 b.low\n",
        ),
        (
            "all, and a schedule that is not there",
            &["world", "s", "u", "a.low=5", "a.go=0", "b.high=9"],
            Status::ReadFault,
            b"read fault\n",
        ),
    ]
}

/// A run with settings: its name, the words, the system, the schedule, the status, and the lines.
type Run = (
    &'static str,
    &'static [&'static str],
    &'static [u8],
    &'static [u8],
    Status,
    &'static [u8],
);

/// Runs with settings, and a text that is refused before they are judged.
fn runs() -> [Run; 8] {
    [
        (
            "a text before a setting",
            &["world", "s", "t", "a.x=1"],
            b"$",
            b"",
            Status::Refused,
            b"refused L1 1:1\n",
        ),
        // The guard of a reads its second input, and its body the first.
        (
            "least values",
            &["world", "s", "t", "a.low=-2", "a.go=1", "b.high=7"],
            INPUTS,
            b"turn a 0\nturn b 1\n",
            Status::Done,
            b"tick a 0\nact a 0\ntick b 1\nact b 0\nvar a k -2\nvar b h 7\nend\n",
        ),
        (
            "greatest values, in another order",
            &["world", "s", "t", "b.high=9", "a.go=1", "a.low=5"],
            INPUTS,
            b"turn a 0\nturn b 1\n",
            Status::Done,
            b"tick a 0\nact a 0\ntick b 1\nact b 0\nvar a k 5\nvar b h 9\nend\n",
        ),
        (
            "a seed among the others",
            &["world", "s", "t", "b.high=9", "seed=1", "a.go=1", "a.low=5"],
            INPUTS,
            b"turn a 0\nturn b 1\n",
            Status::Done,
            b"tick a 0\nact a 0\ntick b 1\nact b 0\nvar a k 5\nvar b h 9\nend\n",
        ),
        (
            "a guard that an input keeps shut",
            &["world", "s", "t", "a.low=5", "a.go=0", "b.high=9"],
            INPUTS,
            b"turn a 0\nturn b 1\nturn b 2\n",
            Status::Done,
            b"tick a 0\nidle a\ntick b 1\nact b 0\ntick b 2\nidle b\nvar a k 0\nvar b h 9\nend\n",
        ),
        (
            "no event",
            &["world", "s", "t", "a.low=5", "a.go=0", "b.high=9"],
            INPUTS,
            b"",
            Status::Done,
            b"var a k 0\nvar b h 8\nend\n",
        ),
        (
            "a bad line",
            &["world", "s", "t", "a.low=5", "a.go=0", "b.high=9"],
            INPUTS,
            b"turn a 0\nturn c 0\n",
            Status::BadSchedule,
            b"tick a 0\nidle a\nbad line 2\n",
        ),
        // 200 is c8 in a byte.
        (
            "an input that is sent",
            &["world", "s", "t", "a.number=200"],
            HELLO,
            b"turn a 0\narrive a b\nturn b 1\n",
            Status::Done,
            b"tick a 0\nact a 0\nsent b c8\narrive a b\ntick b 1\nact b 0\nvar a said 1\nvar b heard 200\nend\n",
        ),
    ]
}

/// The status and the line of the row, of this system with an empty schedule.
fn check_row(rt: &impl Abort, alloc: Global, system: &'static [u8], row: &Row) -> Result<(), Fail> {
    let (name, words, status, lines) = *row;
    let case = Case {
        name,
        words,
        system,
        status,
        lines,
        ..CALM
    };
    check(rt, alloc, &case)
}

#[test]
fn settings_are_judged_behind_the_text(rt: HostRuntime) -> Result<(), Fail> {
    for row in &undeclared() {
        check_row(&rt, rt.alloc(), COUNTER, row)?;
    }
    Ok(())
}

#[test]
fn the_first_offence_of_settings_is_told(rt: HostRuntime) -> Result<(), Fail> {
    for row in &offences() {
        check_row(&rt, rt.alloc(), INPUTS, row)?;
    }
    Ok(())
}

#[test]
fn settings_give_the_inputs_of_a_run(rt: HostRuntime) -> Result<(), Fail> {
    for (name, words, system, schedule, status, lines) in runs() {
        let case = Case {
            name,
            words,
            system,
            schedule,
            status,
            lines,
            ..CALM
        };
        check(&rt, rt.alloc(), &case)?;
    }
    Ok(())
}
