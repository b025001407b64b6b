//! Runs of bodies, with what they leave worked out by hand. The first two words of process 0 with the seed 0 are
//! 3837872008 and 932996374. Of 16 options they take those at 14 and 3, of two that at 1 and at 0, and of three
//! those at 2 and 0.

ghost use Rattle.std.specs.Prelude.{◌≡◌, ◌<◌};
ghost use Rattle.action_machine.specs.Machines.{IsMachineOf};

use super::programs::{pair, smallest};
use super::suiting::{is_guarded, suits};
use action_code::{Code, Instr, Verified, VerifyFault, verify};
use action_machine::{Machine, Outbox, Sent, Steps};
use drawn_choices::generator_of;
use std::alloc::Global;
use std::marker::Brand;
use std::process::Abort;
use std::sync::ledger::{Blank, Ledger};
use std::test::Fail;
use tap_base::NoMemory;
use timer_core::Timers;

/// The code as verified.
fn verified(rt: &impl Abort, alloc: Global, code: Code) -> Result<Verified, NoMemory> {
    match verify(alloc, code) {
        Ok(verified) => Ok(verified),
        Err((_, VerifyFault::NoMemory)) => Err(NoMemory),
        Err((_, VerifyFault::Bad(bad))) => panic!(rt; "{bad:?}"),
    }
}

/// The body of the action of a process, with what it received, and what it leaves: whether its guard held before, if it has
/// one, the cells, the choices, the sends and their values, and when its timer is due if the clock says 100 then.
#[derive(Clone, Copy)]
struct Row {
    name: &'static str,
    process: u32,
    body: &'static [Instr],
    inputs: &'static [i64],
    received: &'static [i64],
    timers: u32,
    held: Option<bool>,
    cells: &'static [i64],
    choices: &'static [i64],
    sends: &'static [Sent],
    values: &'static [i64],
    due: Option<u64>,
}

/// Whether the guard of the action 0 holds, if it has one.
fn guard_before(machine: &mut Machine, code: &Verified, process: u32) -> Option<bool>
    requires machine { IsMachineOf code.now machine.old }
    requires process { machine.old.process ≡ process }
    ensures { machine.new ≡ machine.old }
{
    if is_guarded(code.code(), process, 0) {
        Some(machine.guard(code, 0))
    } else {
        None
    }
}

/// The action 0 is run, and leaves what the row says; then the outbox is cleared.
fn play<L: Ledger>(
    rt: &impl Abort,
    alloc: Global,
    code: &Verified,
    blank: Blank,
    row: &Row,
) -> Result<(), NoMemory>
    requires name { blank.name ≡ L.name }
    requires parts { blank.parts ≡ L.parts }
    requires some { 0 < L.parts }
{
    let suited = suits(
        code.code(),
        row.process,
        0,
        row.inputs,
        row.timers,
        row.received,
    );
    assert!(rt; suited, "{}", row.name);
    let mut steps = Steps::<L>::new(blank);
    let mut out = Outbox::new(alloc, code, row.process)?;
    let mut machine = Machine::new(alloc, code, row.process, row.inputs)?;
    let mut timers = Timers::new(alloc, row.timers)?;
    let mut draw = generator_of(0, 0);
    let held = guard_before(&mut machine, code, row.process);
    machine.run(
        code,
        0,
        row.received,
        &mut draw,
        &mut timers,
        &mut out,
        &mut steps,
    );
    assert_eq!(rt; held, row.held, "{}", row.name);
    assert!(rt; machine.cells() == row.cells, "{}", row.name);
    assert!(rt; out.choices() == row.choices, "{}", row.name);
    assert!(rt; out.sends() == row.sends, "{}", row.name);
    assert!(rt; out.values() == row.values, "{}", row.name);
    timers.tick(100);
    assert_eq!(rt; timers.next_due(), row.due, "{}", row.name);
    out.clear();
    assert!(rt; out.sends().is_empty(), "{}", row.name);
    Ok(())
}

/// Three turns of: x[0] = 0 -> x[0] := 1, or x[0] = 1 -> x[0] := 2. Then a choice of 0..15, which is sent, a division,
/// and the timer that is started with what was chosen.
const TURNS: [Instr; 20] = [
    Instr::Repeat { count: 3, last: 13 },
    Instr::Const { r: 7, imm: 0 },
    Instr::Eq { r: 4, a: 0, b: 7 },
    Instr::Const { r: 7, imm: 1 },
    Instr::Eq { r: 5, a: 0, b: 7 },
    Instr::Select {
        r: 6,
        first: 4,
        count: 2,
    },
    Instr::JumpNe {
        a: 6,
        imm: 0,
        target: 10,
    },
    Instr::Const { r: 7, imm: 1 },
    Instr::Copy { r: 0, a: 7 },
    Instr::Jump { target: 13 },
    Instr::JumpNe {
        a: 6,
        imm: 1,
        target: 14,
    },
    Instr::Const { r: 7, imm: 2 },
    Instr::Copy { r: 0, a: 7 },
    Instr::Again { first: 0 },
    Instr::Choose {
        r: 8,
        lo: 0,
        hi: 15,
    },
    Instr::Send {
        message: 0,
        first: 8,
        count: 1,
        to: 1,
    },
    Instr::Load {
        r: 7,
        base: 0,
        length: 3,
        index: 6,
    },
    Instr::Div { r: 7, a: 7, b: 9 },
    Instr::Save {
        base: 0,
        length: 3,
        index: 6,
        a: 7,
    },
    Instr::Start { timer: 0, a: 8 },
];

/// Both registers hold 1, so that a word selects one of them; the next word chooses a value. Two messages are sent.
const BOTH: [Instr; 9] = [
    Instr::Const { r: 4, imm: 1 },
    Instr::Const { r: 5, imm: 1 },
    Instr::Select {
        r: 6,
        first: 4,
        count: 2,
    },
    Instr::Copy { r: 1, a: 6 },
    Instr::Send {
        message: 0,
        first: 6,
        count: 1,
        to: 1,
    },
    Instr::Choose {
        r: 8,
        lo: 0,
        hi: 15,
    },
    Instr::Send {
        message: 0,
        first: 8,
        count: 1,
        to: 1,
    },
    Instr::Start { timer: 0, a: 8 },
    Instr::Stop { timer: 0 },
];

/// The second turn of a loop finds what the first left: x[2] is the input and 1, twice.
const TWICE: [Instr; 4] = [
    Instr::Repeat { count: 2, last: 3 },
    Instr::Min { r: 7, a: 3, b: 9 },
    Instr::Max { r: 2, a: 2, b: 7 },
    Instr::Again { first: 0 },
];

/// Of the fields received, the second is divided by 2, compared with the cell that begins with 3, and waited for.
const HEARD: [Instr; 5] = [
    Instr::Part { r: 2, field: 1 },
    Instr::Part { r: 3, field: 0 },
    Instr::Div { r: 0, a: 2, b: 4 },
    Instr::Max { r: 1, a: 1, b: 2 },
    Instr::Start { timer: 0, a: 2 },
];

/// A value that is that of the first cell makes way for a choice.
const ANSWERED: [Instr; 6] = [
    Instr::Part { r: 2, field: 1 },
    Instr::Eq { r: 3, a: 2, b: 0 },
    Instr::JumpNe {
        a: 3,
        imm: 1,
        target: 5,
    },
    Instr::Choose {
        r: 1,
        lo: 0,
        hi: 15,
    },
    Instr::Jump { target: 6 },
    Instr::Copy { r: 1, a: 2 },
];

/// Both sends of the second body; the first is also the only one of the first body.
const SENT: [Sent; 2] = [
    Sent {
        to: 1,
        message: 0,
        first: 0,
        count: 2,
    },
    Sent {
        to: 1,
        message: 0,
        first: 2,
        count: 2,
    },
];

const SENT_ONCE: [Sent; 1] = [Sent {
    to: 1,
    message: 0,
    first: 0,
    count: 2,
}];

#[test]
fn bodies_do_what_their_code_says(rt: HostRuntime) -> Result<(), Fail> {
    let alloc = rt.alloc();
    let none = Row {
        name: "nothing",
        process: 0,
        body: &[],
        inputs: &[],
        received: &[],
        timers: 0,
        held: Some(true),
        cells: &[],
        choices: &[],
        sends: &[],
        values: &[],
        due: None,
    };
    play::<Brand>(
        &rt,
        alloc,
        &verified(&rt, alloc, smallest(alloc)?)?,
        Blank::new(1),
        &none,
    )?;
    let rows = [
        Row {
            name: "three turns, a choice, a send and a timer",
            process: 0,
            body: &TURNS,
            inputs: &[4],
            received: &[],
            timers: 1,
            held: Some(true),
            cells: &[2, 0, 0],
            choices: &[14],
            sends: &SENT_ONCE,
            values: &[1, 14],
            due: Some(114),
        },
        Row {
            name: "one of two, a choice, two sends and a timer that is stopped",
            process: 0,
            body: &BOTH,
            inputs: &[0],
            received: &[],
            timers: 1,
            held: Some(false),
            cells: &[0, 1, 0],
            choices: &[1, 3],
            sends: &SENT,
            values: &[1, 1, 1, 3],
            due: None,
        },
        Row {
            name: "two turns",
            process: 0,
            body: &TWICE,
            inputs: &[5],
            received: &[],
            timers: 1,
            held: Some(true),
            cells: &[0, 0, 1],
            choices: &[],
            sends: &[],
            values: &[],
            due: None,
        },
        Row {
            name: "a value that is received, and a timer that waits as long",
            process: 1,
            body: &HEARD,
            inputs: &[],
            received: &[1, 9],
            timers: 1,
            held: None,
            cells: &[4, 9],
            choices: &[],
            sends: &[],
            values: &[],
            due: Some(109),
        },
        Row {
            name: "a value that is the same, and a choice",
            process: 1,
            body: &ANSWERED,
            inputs: &[],
            received: &[1, 3],
            timers: 1,
            held: None,
            cells: &[3, 14],
            choices: &[14],
            sends: &[],
            values: &[],
            due: None,
        },
        Row {
            name: "a value that is another, and none",
            process: 1,
            body: &ANSWERED,
            inputs: &[],
            received: &[1, 5],
            timers: 1,
            held: None,
            cells: &[3, 5],
            choices: &[],
            sends: &[],
            values: &[],
            due: None,
        },
    ];
    for row in &rows {
        let code = match row.process {
            0 => pair(alloc, row.body, &[])?,
            _ => pair(alloc, &[], row.body)?,
        };
        let code = verified(&rt, alloc, code)?;
        play::<Brand>(&rt, alloc, &code, Blank::new(1), row)?;
    }
    Ok(())
}
