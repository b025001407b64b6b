//! Programs of two processes, put together by what changes from one to the next.

use action_code::{
    BadCode, Code, CodeAction, CodeField, CodeInput, CodeKind, CodeMessage, CodeProcess,
    CodeTemporary, CodeVariable, Instr, Part, VerifyFault, verify,
};
use std::alloc::Global;
use tap_base::{List, NoMemory, Text};

/// What changes in the first process, `a`. Its registers are three cells within 0..9, one input within
/// 0..5, and the temporaries; the second one has one action, which receives `m` from the first. Nobody
/// receives `n`, which has the same fields.
#[derive(Clone, Copy)]
pub struct Shape<'a> {
    pub name: &'a str,
    pub other: &'a str,
    pub width: u8,
    pub fixed: Option<u64>,
    pub input: [i64; 2],
    pub cells: u16,
    pub initial: i64,
    pub timers: u16,
    pub kind: CodeKind,
    pub a: u16,
    pub b: u16,
    pub temporary: [i64; 2],
    pub guard: &'a [Instr],
    pub result: u32,
    pub body: &'a [Instr],
}

/// The guard is the constant 1 in register 4, and the body is empty. The temporaries are 4 and 5
/// within 0..1, 6 within 0..2, 7 within 0..9, 8 within 0..15, 9 within 1..3, and 10 within
/// 0..5000000000.
pub fn plain() -> Shape<'static> {
    Shape {
        name: "a",
        other: "b",
        width: 4,
        fixed: Some(1),
        input: [0, 5],
        cells: 3,
        initial: 0,
        timers: 1,
        kind: CodeKind::Local,
        a: 0,
        b: 0,
        temporary: [0, 1],
        guard: &[Instr::Const { r: 4, imm: 1 }],
        result: 4,
        body: &[],
    }
}

fn temporaries(alloc: Global, first: [i64; 2]) -> Result<List<CodeTemporary>, NoMemory> {
    let ends = [
        first,
        [0, 1],
        [0, 2],
        [0, 9],
        [0, 15],
        [1, 3],
        [0, 5000000000],
    ];
    let mut all = List::new(alloc);
    for [lo, hi] in ends {
        all.push(CodeTemporary { lo, hi })?;
    }
    Ok(all)
}

/// An action that receives the message from a process, and does these instructions.
fn receiving(alloc: Global, from: u16, body: &[Instr]) -> Result<CodeAction, NoMemory> {
    Ok(CodeAction {
        kind: CodeKind::Receive,
        a: 0,
        b: from,
        temporaries: List::new(alloc),
        guard: List::new(alloc),
        result: 0,
        body: List::from_slice(alloc, body)?,
    })
}

fn message(alloc: Global, name: &str, shape: &Shape) -> Result<CodeMessage, NoMemory> {
    let mut fields = List::new(alloc);
    fields.push(CodeField {
        width: shape.width,
        fixed: shape.fixed,
    })?;
    fields.push(CodeField {
        width: 4,
        fixed: None,
    })?;
    Ok(CodeMessage {
        name: Text::copy_of(alloc, name)?,
        fields,
    })
}

fn first(alloc: Global, shape: &Shape) -> Result<CodeProcess, NoMemory> {
    let mut inputs = List::new(alloc);
    inputs.push(CodeInput {
        name: Text::copy_of(alloc, "k")?,
        lo: shape.input[0],
        hi: shape.input[1],
    })?;
    let mut variables = List::new(alloc);
    variables.push(CodeVariable {
        name: Text::copy_of(alloc, "x")?,
        cells: shape.cells,
        lo: 0,
        hi: 9,
        initial: shape.initial,
    })?;
    let mut actions = List::new(alloc);
    actions.push(receiving(alloc, 1, &[Instr::Part { r: 0, field: 0 }])?)?;
    actions.push(CodeAction {
        kind: shape.kind,
        a: shape.a,
        b: shape.b,
        temporaries: temporaries(alloc, shape.temporary)?,
        guard: List::from_slice(alloc, shape.guard)?,
        result: shape.result,
        body: List::from_slice(alloc, shape.body)?,
    })?;
    Ok(CodeProcess {
        name: Text::copy_of(alloc, shape.name)?,
        inputs,
        variables,
        timers: shape.timers,
        actions,
    })
}

fn second(alloc: Global, name: &str) -> Result<CodeProcess, NoMemory> {
    let mut actions = List::new(alloc);
    actions.push(receiving(alloc, 0, &[])?)?;
    Ok(CodeProcess {
        name: Text::copy_of(alloc, name)?,
        inputs: List::new(alloc),
        variables: List::new(alloc),
        timers: 0,
        actions,
    })
}

pub fn code_of(alloc: Global, shape: &Shape) -> Result<Code, NoMemory> {
    let mut messages = List::new(alloc);
    messages.push(message(alloc, "m", shape)?)?;
    messages.push(message(alloc, "n", shape)?)?;
    let mut processes = List::new(alloc);
    processes.push(first(alloc, shape)?)?;
    processes.push(second(alloc, shape.other)?)?;
    Ok(Code {
        messages,
        processes,
    })
}

/// The first rule that is broken, and its place.
pub fn broken(alloc: Global, code: Code) -> Result<Option<BadCode>, NoMemory> {
    match verify(alloc, code) {
        Ok(_) => Ok(None),
        Err((_, VerifyFault::Bad(bad))) => Ok(Some(bad)),
        Err((_, VerifyFault::NoMemory)) => Err(NoMemory),
    }
}

/// A rule that an action of the first process breaks.
pub fn at(action: u32, part: Part, instr: u32, rule: u8) -> Option<BadCode> {
    Some(BadCode {
        process: 0,
        action,
        part,
        instr,
        rule,
    })
}
