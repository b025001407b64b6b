//! What statements do.

ghost use Rattle.std.specs.Prelude.{◌≡◌, ◌<◌, ◌^◌, [], IfOk, IfSome, map};
ghost use Rattle.tap_base.specs.Lists.{Each};
ghost use Rattle.tap_exec.specs.Computed.{computed};
ghost use Rattle.tap_exec.specs.Sourced as spec;
ghost use Rattle.tap_exec.specs.Filling.{wire_fields};
ghost use Rattle.tap_exec.specs.inner.Does.{Does, DoesRound};

use crate::assign::{assign, choose, send, set_timer, start, value};
use crate::choices::Choices;
use crate::running::{Running, TimerState};
use std::alloc::Global;
use tap_base::{Branch, List, Message, NoMemory, Stmt, item};

/// The numbers of the branches whose guards hold. No guard reads the declared messages: `[]` stands
/// for any of them.
fn open_branches<C: Choices>(
    alloc: Global,
    branches: &[Branch],
    inputs: &[i64],
    received: &[i64],
    r: &Running<C>,
) -> Result<Option<List<usize>>, NoMemory>
    ensures ready { IfOk result (λ ks. ks ≡ spec.open_from 0 (map (spec.alternative computed [] inputs.now received.now C.takes) branches.now) r.now) }
    ensures few { IfOk result (λ found. IfSome found (Each (λ n. n < 2 ^ 63))) }
{
    let mut all = List::new(alloc);
    for at in 0..branches.len() {
        let Some(value) = value(&branches[at].guard, inputs, received, r) else {
            return Ok(None);
        };
        if value == 1 {
            all.push(at)?;
        }
    }
    Ok(Some(all))
}

/// Runs one branch.
#[cycle(exec)]
fn run_branch<C: Choices>(
    alloc: Global,
    messages: &[Message],
    branches: &[Branch],
    at: usize,
    inputs: &[i64],
    received: &[i64],
    r: &mut Running<C>,
) -> Result<Option<bool>, NoMemory>
    ensures { IfOk result (λ ran. DoesRound (spec.one_runs (map (spec.alternative computed (map wire_fields messages.now) inputs.now received.now C.takes) branches.now) at r.old) ran r.new) }
{
    let Some(chosen) = item(branches, at) else {
        return Ok(None);
    };
    let done = exec_all(alloc, messages, chosen.body.as_slice(), inputs, received, r)?;
    Ok(if done { Some(true) } else { None })
}

/// One round: none of these branches runs, the only one runs, or the next choice says which.
#[cycle(exec)]
fn round<C: Choices>(
    alloc: Global,
    messages: &[Message],
    branches: &[Branch],
    ready: &[usize],
    inputs: &[i64],
    received: &[i64],
    r: &mut Running<C>,
) -> Result<Option<bool>, NoMemory>
    requires { Each (λ n. n < 2 ^ 63) ready.now }
    ensures { IfOk result (λ ran. DoesRound (spec.round C.takes (map (spec.alternative computed (map wire_fields messages.now) inputs.now received.now C.takes) branches.now) ready.now r.old) ran r.new) }
{
    match ready {
        [] => Ok(Some(false)),
        [only] => run_branch(alloc, messages, branches, *only, inputs, received, r),
        _ => {
            let Some(number) = r.choices.take_number(ready)? else {
                return Ok(None);
            };
            let at = number.unsigned_abs() as usize;
            run_branch(alloc, messages, branches, at, inputs, received, r)
        }
    }
}

/// At most so many rounds.
#[cycle(exec)]
fn rounds<C: Choices>(
    alloc: Global,
    messages: &[Message],
    count: u32,
    branches: &[Branch],
    inputs: &[i64],
    received: &[i64],
    r: &mut Running<C>,
) -> Result<bool, NoMemory>
    ensures { IfOk result (λ done. Does (spec.rounds C.takes count (map (spec.alternative computed (map wire_fields messages.now) inputs.now received.now C.takes) branches.now) r.old) done r.new) }
{
    for _i in 0..count {
        let Some(ready) = open_branches(alloc, branches, inputs, received, r)? else {
            return Ok(false);
        };
        let ready = ready.as_slice();
        match round(alloc, messages, branches, ready, inputs, received, r)? {
            None => return Ok(false),
            Some(false) => return Ok(true),
            Some(true) => {}
        }
    }
    Ok(true)
}

/// Runs a statement, and says whether it could be run with these choices.
#[cycle(exec)]
fn exec<C: Choices>(
    alloc: Global,
    messages: &[Message],
    stmt: &Stmt,
    inputs: &[i64],
    received: &[i64],
    r: &mut Running<C>,
) -> Result<bool, NoMemory>
    ensures { IfOk result (λ done. Does (spec.exec computed (map wire_fields messages.now) inputs.now received.now C.takes stmt.now r.old) done r.new) }
{
    match stmt {
        Stmt::Skip => Ok(true),
        Stmt::Assign { targets, values } => {
            let (targets, values) = (targets.as_slice(), values.as_slice());
            assign(alloc, targets, values, inputs, received, r)
        }
        Stmt::Choose { target } => choose(target, inputs, received, r),
        Stmt::Send {
            message,
            values,
            to,
        } => {
            let values = values.as_slice();
            send(alloc, messages, *message, values, *to, inputs, received, r)
        }
        Stmt::Start { timer, delay } => Ok(start(*timer, delay, inputs, received, r)),
        Stmt::Stop { timer } => {
            set_timer(&mut r.timers, *timer as usize, TimerState::Off);
            Ok(true)
        }
        Stmt::If { branches } => {
            let branches = branches.as_slice();
            rounds(alloc, messages, 1, branches, inputs, received, r)
        }
        Stmt::Loop { count, branches } => {
            let branches = branches.as_slice();
            rounds(alloc, messages, *count, branches, inputs, received, r)
        }
    }
}

/// Runs statements in order, and says whether they could be run with these choices.
#[cycle(exec)]
pub fn exec_all<C: Choices>(
    alloc: Global,
    messages: &[Message],
    stmts: &[Stmt],
    inputs: &[i64],
    received: &[i64],
    r: &mut Running<C>,
) -> Result<bool, NoMemory>
    ensures { IfOk result (λ done. Does (spec.exec_all computed (map wire_fields messages.now) inputs.now received.now C.takes stmts.now r.old) done r.new) }
{
    for stmt in stmts {
        if !exec(alloc, messages, stmt, inputs, received, r)? {
            return Ok(false);
        }
    }
    Ok(true)
}
