//! Bodies that break a rule, each with the number of the instruction.

use super::shapes::{Shape, at, broken, code_of, plain};
use action_code::{Instr, Part};
use std::process::Abort;
use std::test::Fail;

/// A body, with the number of the instruction that breaks a rule and the rule.
type Row<'a> = (&'static str, u32, u8, &'a [Instr]);

/// Each body breaks just this rule first.
fn check(rt: &impl Abort, alloc: std::alloc::Global, rows: &[Row]) -> Result<(), Fail> {
    for (name, instr, rule, body) in rows {
        let shape = Shape {
            body: *body,
            ..plain()
        };
        let wanted = at(1, Part::Body, *instr, *rule);
        assert_eq!(rt; broken(alloc, code_of(alloc, &shape)?)?, wanted, "{name}");
    }
    Ok(())
}

#[test]
fn what_is_named_is_there(rt: HostRuntime) -> Result<(), Fail> {
    let rows: [Row; 9] = [
        ("a register", 0, 4, &[Instr::Copy { r: 0, a: 11 }]),
        (
            "an input that is written",
            0,
            4,
            &[Instr::Const { r: 3, imm: 0 }],
        ),
        (
            "a field of no message",
            0,
            4,
            &[Instr::Part { r: 7, field: 0 }],
        ),
        (
            "a run past the cells",
            0,
            4,
            &[Instr::Load {
                r: 7,
                base: 2,
                length: 2,
                index: 4,
            }],
        ),
        (
            "a run of none past the cells",
            0,
            4,
            &[Instr::Save {
                base: 4,
                length: 0,
                index: 4,
                a: 7,
            }],
        ),
        (
            "a message",
            1,
            4,
            &[
                Instr::Stop { timer: 0 },
                Instr::Send {
                    message: 2,
                    first: 8,
                    count: 1,
                    to: 1,
                },
            ],
        ),
        (
            "a process",
            0,
            4,
            &[Instr::Send {
                message: 0,
                first: 8,
                count: 1,
                to: 2,
            }],
        ),
        ("a timer", 0, 4, &[Instr::Stop { timer: 1 }]),
        (
            "registers of a selection",
            0,
            4,
            &[Instr::Select {
                r: 7,
                first: 10,
                count: 2,
            }],
        ),
    ];
    check(&rt, rt.alloc(), &rows)
}

#[test]
fn results_and_indexes_are_in_range(rt: HostRuntime) -> Result<(), Fail> {
    let rows: [Row; 10] = [
        ("a constant", 0, 5, &[Instr::Const { r: 4, imm: 2 }]),
        ("a copy", 0, 5, &[Instr::Copy { r: 4, a: 6 }]),
        ("a sum", 0, 5, &[Instr::Add { r: 7, a: 0, b: 1 }]),
        (
            "a divisor that may be 0",
            0,
            5,
            &[Instr::Div { r: 7, a: 0, b: 6 }],
        ),
        (
            "a remainder by what may be 0",
            0,
            5,
            &[Instr::Mod { r: 7, a: 0, b: 6 }],
        ),
        (
            "a loaded cell",
            0,
            5,
            &[Instr::Load {
                r: 6,
                base: 0,
                length: 3,
                index: 6,
            }],
        ),
        (
            "a saved value",
            0,
            5,
            &[Instr::Save {
                base: 0,
                length: 3,
                index: 6,
                a: 8,
            }],
        ),
        (
            "a choice above the register's range",
            0,
            5,
            &[Instr::Choose {
                r: 7,
                lo: 5,
                hi: 10,
            }],
        ),
        (
            "an index behind the run",
            0,
            6,
            &[Instr::Load {
                r: 7,
                base: 0,
                length: 2,
                index: 6,
            }],
        ),
        (
            "an index of a save",
            1,
            6,
            &[
                Instr::Copy { r: 7, a: 0 },
                Instr::Save {
                    base: 0,
                    length: 3,
                    index: 7,
                    a: 7,
                },
            ],
        ),
    ];
    check(&rt, rt.alloc(), &rows)
}

#[test]
fn choices_sends_and_delays_fit(rt: HostRuntime) -> Result<(), Fail> {
    let rows: [Row; 9] = [
        (
            "a choice of none",
            0,
            7,
            &[Instr::Choose { r: 7, lo: 5, hi: 4 }],
        ),
        (
            "a choice of 2^32 and one",
            0,
            7,
            &[Instr::Choose {
                r: 10,
                lo: 0,
                hi: 4294967296,
            }],
        ),
        (
            "a selection of none",
            0,
            7,
            &[Instr::Select {
                r: 7,
                first: 4,
                count: 0,
            }],
        ),
        (
            "a selection of what may be 2",
            0,
            7,
            &[Instr::Select {
                r: 7,
                first: 4,
                count: 3,
            }],
        ),
        (
            "a selection with no room for none",
            0,
            7,
            &[Instr::Select {
                r: 4,
                first: 4,
                count: 2,
            }],
        ),
        (
            "a send of two values for one field",
            0,
            8,
            &[Instr::Send {
                message: 0,
                first: 7,
                count: 2,
                to: 1,
            }],
        ),
        (
            "a send of five bits",
            0,
            8,
            &[Instr::Send {
                message: 0,
                first: 10,
                count: 1,
                to: 1,
            }],
        ),
        (
            "a send to itself",
            0,
            8,
            &[Instr::Send {
                message: 0,
                first: 8,
                count: 1,
                to: 0,
            }],
        ),
        (
            "a delay of 33 bits",
            0,
            13,
            &[Instr::Start { timer: 0, a: 10 }],
        ),
    ];
    check(&rt, rt.alloc(), &rows)
}

#[test]
fn jumps_go_forward_and_into_no_loop(rt: HostRuntime) -> Result<(), Fail> {
    let rows: [Row; 5] = [
        ("to itself", 0, 9, &[Instr::Jump { target: 0 }]),
        (
            "back",
            1,
            9,
            &[
                Instr::Stop { timer: 0 },
                Instr::JumpNe {
                    a: 4,
                    imm: 0,
                    target: 0,
                },
            ],
        ),
        ("past the end", 0, 9, &[Instr::Jump { target: 2 }]),
        (
            "into a loop",
            0,
            9,
            &[
                Instr::Jump { target: 2 },
                Instr::Repeat { count: 2, last: 3 },
                Instr::Stop { timer: 0 },
                Instr::Again { first: 1 },
            ],
        ),
        (
            "from one loop into the next",
            1,
            9,
            &[
                Instr::Repeat { count: 2, last: 2 },
                Instr::Jump { target: 4 },
                Instr::Again { first: 0 },
                Instr::Repeat { count: 2, last: 5 },
                Instr::Stop { timer: 0 },
                Instr::Again { first: 3 },
            ],
        ),
    ];
    check(&rt, rt.alloc(), &rows)
}

#[test]
fn loops_are_whole_and_nested(rt: HostRuntime) -> Result<(), Fail> {
    let rows: [Row; 7] = [
        (
            "a beginning alone",
            0,
            10,
            &[
                Instr::Repeat { count: 2, last: 1 },
                Instr::Stop { timer: 0 },
            ],
        ),
        (
            "an end alone",
            1,
            10,
            &[Instr::Stop { timer: 0 }, Instr::Again { first: 0 }],
        ),
        (
            "no turn",
            0,
            10,
            &[
                Instr::Repeat { count: 0, last: 1 },
                Instr::Again { first: 0 },
            ],
        ),
        (
            "65537 turns",
            0,
            10,
            &[
                Instr::Repeat {
                    count: 65537,
                    last: 1,
                },
                Instr::Again { first: 0 },
            ],
        ),
        (
            "the end in front",
            1,
            10,
            &[
                Instr::Again { first: 1 },
                Instr::Repeat { count: 2, last: 0 },
            ],
        ),
        (
            "two that cross",
            0,
            10,
            &[
                Instr::Repeat { count: 2, last: 2 },
                Instr::Repeat { count: 2, last: 3 },
                Instr::Again { first: 0 },
                Instr::Again { first: 1 },
            ],
        ),
        (
            "the second of two in one that cross",
            1,
            10,
            &[
                Instr::Repeat { count: 2, last: 5 },
                Instr::Repeat { count: 2, last: 3 },
                Instr::Repeat { count: 2, last: 4 },
                Instr::Again { first: 1 },
                Instr::Again { first: 2 },
                Instr::Again { first: 0 },
            ],
        ),
    ];
    check(&rt, rt.alloc(), &rows)
}

/// What a whole part costs and sends comes last, at its last instruction.
#[test]
fn parts_cost_and_send_no_more(rt: HostRuntime) -> Result<(), Fail> {
    let rows: [Row; 3] = [
        (
            "65536 times 300 turns",
            3,
            11,
            &[
                Instr::Repeat {
                    count: 65536,
                    last: 3,
                },
                Instr::Repeat {
                    count: 300,
                    last: 2,
                },
                Instr::Again { first: 1 },
                Instr::Again { first: 0 },
            ],
        ),
        (
            "65 sends",
            2,
            12,
            &[
                Instr::Repeat { count: 65, last: 2 },
                Instr::Send {
                    message: 0,
                    first: 8,
                    count: 1,
                    to: 1,
                },
                Instr::Again { first: 0 },
            ],
        ),
        (
            "a delay behind 65 sends",
            3,
            13,
            &[
                Instr::Repeat { count: 65, last: 2 },
                Instr::Send {
                    message: 0,
                    first: 8,
                    count: 1,
                    to: 1,
                },
                Instr::Again { first: 0 },
                Instr::Start { timer: 0, a: 10 },
            ],
        ),
    ];
    check(&rt, rt.alloc(), &rows)
}
