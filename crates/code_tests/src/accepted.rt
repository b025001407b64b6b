//! Programs that break no rule.

use super::shapes::{Shape, at, broken, code_of, plain};
use action_code::{
    Code, CodeAction, CodeKind, CodeProcess, CodeTemporary, Instr, Part, VerifyFault, verify,
};
use std::alloc::Global;
use std::test::Fail;
use tap_base::{List, NoMemory, Receive, Text, WireField};

/// One process with one action: its guard is a constant, and its body is these instructions.
fn one(alloc: Global, imm: i64, body: &[Instr]) -> Result<Code, NoMemory> {
    let mut temporaries = List::new(alloc);
    temporaries.push(CodeTemporary { lo: 1, hi: 1 })?;
    let mut guard = List::new(alloc);
    guard.push(Instr::Const { r: 0, imm })?;
    let mut actions = List::new(alloc);
    actions.push(CodeAction {
        kind: CodeKind::Local,
        a: 0,
        b: 0,
        temporaries,
        guard,
        result: 0,
        body: List::from_slice(alloc, body)?,
    })?;
    let mut processes = List::new(alloc);
    processes.push(CodeProcess {
        name: Text::copy_of(alloc, "a")?,
        inputs: List::new(alloc),
        variables: List::new(alloc),
        timers: 0,
        actions,
    })?;
    Ok(Code {
        messages: List::new(alloc),
        processes,
    })
}

/// The smallest program, and what small changes to it are answered.
#[test]
fn the_smallest_program_is_judged(rt: HostRuntime) -> Result<(), Fail> {
    let alloc = rt.alloc();
    let turns = [
        Instr::Repeat { count: 2, last: 1 },
        Instr::Again { first: 0 },
    ];
    let table: [(&str, _, i64, &[Instr]); 4] = [
        ("as it is", None, 1, &[]),
        ("the constant 2", at(0, Part::Guard, 0, 5), 2, &[]),
        (
            "a jump past the end",
            at(0, Part::Body, 0, 9),
            1,
            &[Instr::Jump { target: 5 }],
        ),
        ("a loop of two turns", None, 1, &turns),
    ];
    for (name, wanted, imm, body) in table {
        assert_eq!(rt; broken(alloc, one(alloc, imm, body)?)?, wanted, "{name}");
    }
    Ok(())
}

/// Three turns of: x[0] = 0 -> x[0] := 1, or x[0] = 1 -> x[0] := 2; and a send, a timer and a choice behind them.
#[test]
fn a_loop_with_a_selection_is_accepted(rt: HostRuntime) -> Result<(), Fail> {
    let body = [
        Instr::Repeat { count: 3, last: 13 },
        Instr::Const { r: 7, imm: 0 },
        Instr::Eq { r: 4, a: 0, b: 7 },
        Instr::Const { r: 7, imm: 1 },
        Instr::Eq { r: 5, a: 0, b: 7 },
        Instr::Select {
            r: 6,
            first: 4,
            count: 2,
        },
        Instr::JumpNe {
            a: 6,
            imm: 0,
            target: 10,
        },
        Instr::Const { r: 7, imm: 1 },
        Instr::Copy { r: 0, a: 7 },
        Instr::Jump { target: 13 },
        Instr::JumpNe {
            a: 6,
            imm: 1,
            target: 14,
        },
        Instr::Const { r: 7, imm: 2 },
        Instr::Copy { r: 0, a: 7 },
        Instr::Again { first: 0 },
        Instr::Choose {
            r: 8,
            lo: 0,
            hi: 15,
        },
        Instr::Send {
            message: 0,
            first: 8,
            count: 1,
            to: 1,
        },
        Instr::Load {
            r: 7,
            base: 0,
            length: 3,
            index: 6,
        },
        Instr::Div { r: 7, a: 7, b: 9 },
        Instr::Save {
            base: 0,
            length: 3,
            index: 6,
            a: 7,
        },
        Instr::Start { timer: 0, a: 8 },
    ];
    let alloc = rt.alloc();
    let shape = Shape {
        body: &body,
        ..plain()
    };
    assert_eq!(rt; broken(alloc, code_of(alloc, &shape)?)?, None);
    Ok(())
}

/// The wire has both messages' fields, and who receives what.
#[test]
fn the_wire_is_that_of_the_code(rt: HostRuntime) -> Result<(), Fail> {
    let alloc = rt.alloc();
    let verified = match verify(alloc, code_of(alloc, &plain())?) {
        Ok(verified) => verified,
        Err((_, VerifyFault::Bad(_))) => {
            assert!(&rt; false, "the code is accepted");
            return Ok(());
        }
        Err((_, VerifyFault::NoMemory)) => return Err(Fail::from(NoMemory)),
    };
    let wire = verified.code().wire(alloc)?;
    let receives = [
        Receive {
            by: 0,
            from: 1,
            message: 0,
        },
        Receive {
            by: 1,
            from: 0,
            message: 0,
        },
    ];
    assert_eq!(&rt; wire.processes, 2);
    assert!(&rt; wire.receives.as_slice() == receives.as_slice());
    let fields = [
        WireField {
            width: 4,
            fixed: Some(1),
        },
        WireField {
            width: 4,
            fixed: None,
        },
    ];
    for message in &wire.messages.items {
        assert!(&rt; message.as_slice() == fields.as_slice());
    }
    Ok(())
}
