//! Declarations and guards that break a rule.

use super::shapes::{Shape, at, broken, code_of, plain};
use action_code::{CodeKind, Instr, Part};
use std::test::Fail;

/// Limits and names stand at the beginning of the program, and so do the fields of messages; values stand at
/// their process, temporaries and guards at their action.
#[test]
fn declarations_keep_their_rules(rt: HostRuntime) -> Result<(), Fail> {
    let start = at(0, Part::Guard, 0, 1);
    let field = at(0, Part::Guard, 0, 2);
    let value = at(0, Part::Guard, 0, 2);
    let temporary = at(1, Part::Guard, 0, 2);
    let guard = at(1, Part::Guard, 0, 3);
    let table = [
        ("all as it should be", None, plain()),
        (
            "no name",
            start,
            Shape {
                name: "",
                ..plain()
            },
        ),
        (
            "a name with a digit in front",
            start,
            Shape {
                name: "9a",
                ..plain()
            },
        ),
        (
            "one name twice",
            start,
            Shape {
                other: "a",
                ..plain()
            },
        ),
        (
            "too many cells",
            start,
            Shape {
                cells: 4097,
                ..plain()
            },
        ),
        (
            "too many timers",
            start,
            Shape {
                timers: 33,
                ..plain()
            },
        ),
        (
            "a field of no bits",
            field,
            Shape {
                width: 0,
                ..plain()
            },
        ),
        (
            "a field of 64 bits",
            field,
            Shape {
                width: 64,
                ..plain()
            },
        ),
        (
            "a fixed value of five bits",
            field,
            Shape {
                fixed: Some(16),
                ..plain()
            },
        ),
        (
            "an input without values",
            value,
            Shape {
                input: [1, 0],
                ..plain()
            },
        ),
        (
            "a variable without cells",
            value,
            Shape {
                cells: 0,
                ..plain()
            },
        ),
        (
            "a variable that begins outside",
            value,
            Shape {
                initial: 10,
                ..plain()
            },
        ),
        (
            "a temporary without values",
            temporary,
            Shape {
                temporary: [1, 0],
                ..plain()
            },
        ),
        (
            "a number that is not used",
            guard,
            Shape { a: 1, ..plain() },
        ),
        (
            "a result that may be 2",
            guard,
            Shape {
                result: 6,
                ..plain()
            },
        ),
        (
            "a result that is not there",
            guard,
            Shape {
                result: 11,
                ..plain()
            },
        ),
        (
            "a receive with code",
            guard,
            Shape {
                kind: CodeKind::Receive,
                b: 1,
                ..plain()
            },
        ),
        (
            "a timeout of no timer",
            guard,
            Shape {
                kind: CodeKind::Timeout,
                a: 1,
                guard: &[],
                result: 0,
                ..plain()
            },
        ),
        (
            "a receive from itself",
            guard,
            Shape {
                kind: CodeKind::Receive,
                guard: &[],
                result: 0,
                ..plain()
            },
        ),
        (
            "a jump in a guard",
            at(1, Part::Guard, 0, 4),
            Shape {
                guard: &[Instr::Jump { target: 1 }],
                ..plain()
            },
        ),
        (
            "a guard that writes a cell",
            at(1, Part::Guard, 0, 4),
            Shape {
                guard: &[Instr::Const { r: 0, imm: 1 }],
                ..plain()
            },
        ),
    ];
    let alloc = rt.alloc();
    for (name, wanted, shape) in table {
        assert_eq!(rt; broken(alloc, code_of(alloc, &shape)?)?, wanted, "{name}");
    }
    Ok(())
}
