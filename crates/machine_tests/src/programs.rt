//! Programs that machines run.

use action_code::{
    Code, CodeAction, CodeField, CodeInput, CodeKind, CodeMessage, CodeProcess, CodeTemporary,
    CodeVariable, Instr,
};
use std::alloc::Global;
use tap_base::{List, NoMemory, Text};

/// A process of one action, which holds always and does nothing.
pub fn smallest(alloc: Global) -> Result<Code, NoMemory> {
    let mut temporaries = List::new(alloc);
    temporaries.push(CodeTemporary { lo: 1, hi: 1 })?;
    let mut guard = List::new(alloc);
    guard.push(Instr::Const { r: 0, imm: 1 })?;
    let mut actions = List::new(alloc);
    actions.push(CodeAction {
        kind: CodeKind::Local,
        a: 0,
        b: 0,
        temporaries,
        guard,
        result: 0,
        body: List::new(alloc),
    })?;
    let mut processes = List::new(alloc);
    processes.push(CodeProcess {
        name: Text::copy_of(alloc, "a")?,
        inputs: List::new(alloc),
        variables: List::new(alloc),
        timers: 0,
        actions,
    })?;
    Ok(Code {
        messages: List::new(alloc),
        processes,
    })
}

/// A message of two fields of 4 bits, of which the first is always 1.
fn message(alloc: Global) -> Result<CodeMessage, NoMemory> {
    let mut fields = List::new(alloc);
    fields.push(CodeField {
        width: 4,
        fixed: Some(1),
    })?;
    fields.push(CodeField {
        width: 4,
        fixed: None,
    })?;
    Ok(CodeMessage {
        name: Text::copy_of(alloc, "m")?,
        fields,
    })
}

/// The temporaries are the registers from 4 on: 4 and 5 within 0..1, 6 within 0..2, 7 within 0..9, 8
/// within 0..15 and 9 within 1..3.
fn temporaries(alloc: Global) -> Result<List<CodeTemporary>, NoMemory> {
    let mut all = List::new(alloc);
    for [lo, hi] in [[0, 1], [0, 1], [0, 2], [0, 9], [0, 15], [1, 3]] {
        all.push(CodeTemporary { lo, hi })?;
    }
    Ok(all)
}

/// The guard holds where the first cell is less than the input.
fn acting(alloc: Global, body: &[Instr]) -> Result<CodeAction, NoMemory> {
    let mut guard = List::new(alloc);
    guard.push(Instr::Lt { r: 4, a: 0, b: 3 })?;
    Ok(CodeAction {
        kind: CodeKind::Local,
        a: 0,
        b: 0,
        temporaries: temporaries(alloc)?,
        guard,
        result: 4,
        body: List::from_slice(alloc, body)?,
    })
}

/// The registers are three cells within 0..9, of which each begins with 0, and an input within 0..5.
fn first(alloc: Global, body: &[Instr]) -> Result<CodeProcess, NoMemory> {
    let mut inputs = List::new(alloc);
    inputs.push(CodeInput {
        name: Text::copy_of(alloc, "k")?,
        lo: 0,
        hi: 5,
    })?;
    let mut variables = List::new(alloc);
    variables.push(CodeVariable {
        name: Text::copy_of(alloc, "x")?,
        cells: 3,
        lo: 0,
        hi: 9,
        initial: 0,
    })?;
    let mut actions = List::new(alloc);
    actions.push(acting(alloc, body)?)?;
    Ok(CodeProcess {
        name: Text::copy_of(alloc, "a")?,
        inputs,
        variables,
        timers: 1,
        actions,
    })
}

/// It receives the message from the first process. The registers are two cells within 0..15, of which each begins with 3,
/// and then the temporaries: 2 within 0..15, 3 within 0..1 and 4 within 2..3.
fn second(alloc: Global, body: &[Instr]) -> Result<CodeProcess, NoMemory> {
    let mut variables = List::new(alloc);
    variables.push(CodeVariable {
        name: Text::copy_of(alloc, "y")?,
        cells: 2,
        lo: 0,
        hi: 15,
        initial: 3,
    })?;
    let mut temporaries = List::new(alloc);
    for [lo, hi] in [[0, 15], [0, 1], [2, 3]] {
        temporaries.push(CodeTemporary { lo, hi })?;
    }
    let mut actions = List::new(alloc);
    actions.push(CodeAction {
        kind: CodeKind::Receive,
        a: 0,
        b: 0,
        temporaries,
        guard: List::new(alloc),
        result: 0,
        body: List::from_slice(alloc, body)?,
    })?;
    Ok(CodeProcess {
        name: Text::copy_of(alloc, "b")?,
        inputs: List::new(alloc),
        variables,
        timers: 1,
        actions,
    })
}

/// Two processes, of which each has one action. They have these bodies.
pub fn pair(alloc: Global, sending: &[Instr], receiving: &[Instr]) -> Result<Code, NoMemory> {
    let mut messages = List::new(alloc);
    messages.push(message(alloc)?)?;
    let mut processes = List::new(alloc);
    processes.push(first(alloc, sending)?)?;
    processes.push(second(alloc, receiving)?)?;
    Ok(Code {
        messages,
        processes,
    })
}
