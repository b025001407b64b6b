//! Each rule, broken once.

use super::shapes::{Shape, at, broken, code_of, plain};
use action_code::{BadCode, Instr, Part};
use std::test::Fail;

const STOP: Instr = Instr::Stop { timer: 0 };

const SEND: Instr = Instr::Send {
    message: 0,
    first: 8,
    count: 1,
    to: 1,
};

/// A name, the rule that is broken with its place, and the program.
type Row<'a> = (&'static str, Option<BadCode>, Shape<'a>);

fn body_at(instr: u32, rule: u8) -> Option<BadCode> {
    at(1, Part::Body, instr, rule)
}

/// Of each rule one program that breaks it and no other. Limits and names stand at the beginning, a
/// temporary and a guard at that of their action, and what a whole part costs and sends at its end.
#[test]
fn each_rule_is_broken_once(rt: HostRuntime) -> Result<(), Fail> {
    let table: [Row; 13] = [
        (
            "V1, a name with a digit in front",
            at(0, Part::Guard, 0, 1),
            Shape {
                name: "9a",
                ..plain()
            },
        ),
        (
            "V2, a temporary without values",
            at(1, Part::Guard, 0, 2),
            Shape {
                temporary: [1, 0],
                ..plain()
            },
        ),
        (
            "V3, a result that may be 2",
            at(1, Part::Guard, 0, 3),
            Shape {
                result: 6,
                ..plain()
            },
        ),
        (
            "V4, a register that is not there",
            body_at(1, 4),
            Shape {
                body: &[STOP, Instr::Copy { r: 0, a: 11 }],
                ..plain()
            },
        ),
        (
            "V5, a constant above its register's range",
            body_at(2, 5),
            Shape {
                body: &[STOP, STOP, Instr::Const { r: 4, imm: 2 }],
                ..plain()
            },
        ),
        (
            "V6, an index behind its run",
            body_at(1, 6),
            Shape {
                body: &[
                    STOP,
                    Instr::Load {
                        r: 7,
                        base: 0,
                        length: 2,
                        index: 6,
                    },
                ],
                ..plain()
            },
        ),
        (
            "V7, a choice of none",
            body_at(0, 7),
            Shape {
                body: &[Instr::Choose { r: 7, lo: 5, hi: 4 }, STOP],
                ..plain()
            },
        ),
        (
            "V8, a message that nobody receives",
            body_at(1, 8),
            Shape {
                body: &[
                    SEND,
                    Instr::Send {
                        message: 1,
                        first: 8,
                        count: 1,
                        to: 1,
                    },
                ],
                ..plain()
            },
        ),
        (
            "V9, a jump back",
            body_at(2, 9),
            Shape {
                body: &[STOP, STOP, Instr::Jump { target: 1 }],
                ..plain()
            },
        ),
        (
            "V10, loops that cross",
            body_at(1, 10),
            Shape {
                body: &[
                    STOP,
                    Instr::Repeat { count: 2, last: 3 },
                    Instr::Repeat { count: 2, last: 4 },
                    Instr::Again { first: 1 },
                    Instr::Again { first: 2 },
                ],
                ..plain()
            },
        ),
        // 2 + 2 * 65,536 + 65,536 * 300 instructions
        (
            "V11, more than 16,000,000 instructions",
            body_at(4, 11),
            Shape {
                body: &[
                    Instr::Repeat {
                        count: 65536,
                        last: 3,
                    },
                    Instr::Repeat {
                        count: 300,
                        last: 2,
                    },
                    Instr::Again { first: 1 },
                    Instr::Again { first: 0 },
                    STOP,
                ],
                ..plain()
            },
        ),
        (
            "V12, 65 sends",
            body_at(3, 12),
            Shape {
                body: &[
                    Instr::Repeat { count: 65, last: 2 },
                    SEND,
                    Instr::Again { first: 0 },
                    STOP,
                ],
                ..plain()
            },
        ),
        (
            "V13, a delay of 33 bits",
            body_at(1, 13),
            Shape {
                body: &[STOP, Instr::Start { timer: 0, a: 10 }, STOP],
                ..plain()
            },
        ),
    ];
    let alloc = rt.alloc();
    for (name, wanted, shape) in table {
        assert_eq!(rt; broken(alloc, code_of(alloc, &shape)?)?, wanted, "{name}");
    }
    Ok(())
}
