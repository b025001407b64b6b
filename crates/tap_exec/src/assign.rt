//! Assignments, choices of a value, sends and timers. Only a send reads the declared messages: `[]`
//! stands for any of them where the others say what they do.

ghost use Rattle.std.specs.Prelude.{◌≡◌, [], IfOk, map, slice_set};
ghost use Rattle.tap_base.specs.Option.{each};
ghost use Rattle.tap_exec.specs.Computed.{computed};
ghost use Rattle.tap_exec.specs.Sourced as spec;
ghost use Rattle.tap_exec.specs.Filling.{wire_fields};
ghost use Rattle.tap_exec.specs.inner.Does.{Does};

use crate::choices::Choices;
use crate::evaluate::try_eval;
use crate::fields::fill;
use crate::running::{Outgoing, Running, TimerState};
use std::alloc::Global;
use tap_base::{Expr, List, Message, NoMemory, Target, item};

/// The value of an expression now.
pub(crate) fn value<C>(expr: &Expr, inputs: &[i64], received: &[i64], r: &Running<C>) -> Option<i64>
    ensures { result ≡ spec.value_in computed [] inputs.now received.now r.now expr.now }
{
    try_eval(expr, r.cells.as_slice(), inputs, received)
}

fn values<C>(
    alloc: Global,
    exprs: &[Expr],
    inputs: &[i64],
    received: &[i64],
    r: &Running<C>,
) -> Result<Option<List<i64>>, NoMemory>
    ensures { IfOk result (λ vs. vs ≡ each (spec.value_in computed [] inputs.now received.now r.now) exprs.now) }
{
    let mut all = List::new(alloc);
    for expr in exprs {
        let Some(value) = value(expr, inputs, received, r) else {
            return Ok(None);
        };
        all.push(value)?;
    }
    Ok(Some(all))
}

/// The cell that a target names: its first, or the one that its index says, which is none outside
/// its array.
fn place<C>(target: &Target, inputs: &[i64], received: &[i64], r: &Running<C>) -> Option<usize>
    ensures { result ≡ spec.place_in computed [] inputs.now received.now r.now target.now }
{
    let first = target.first as usize;
    let Some(index) = &target.index else {
        return Some(first);
    };
    let i = value(index, inputs, received, r)?;
    if 0 <= i && i < target.length as i64 {
        Some(first + i as usize)
    } else {
        None
    }
}

fn places<C>(
    alloc: Global,
    targets: &[Target],
    inputs: &[i64],
    received: &[i64],
    r: &Running<C>,
) -> Result<Option<List<usize>>, NoMemory>
    ensures { IfOk result (λ ps. ps ≡ each (spec.place_in computed [] inputs.now received.now r.now) targets.now) }
{
    let mut all = List::new(alloc);
    for target in targets {
        let Some(place) = place(target, inputs, received, r) else {
            return Ok(None);
        };
        all.push(place)?;
    }
    Ok(Some(all))
}

fn write(cells: &mut List<i64>, place: usize, value: i64)
    ensures { cells.new ≡ slice_set cells.old place value }
{
    if place < cells.len() {
        cells.set(place, value);
    }
}

fn write_all(cells: &mut List<i64>, places: &[usize], values: &[i64])
    ensures { cells.new ≡ spec.writes places.now values.now cells.old }
{
    for at in 0..places.len() {
        let Some(value) = values.get(at) else {
            return;
        };
        write(cells, places[at], *value);
    }
}

pub(crate) fn assign<C>(
    alloc: Global,
    targets: &[Target],
    exprs: &[Expr],
    inputs: &[i64],
    received: &[i64],
    r: &mut Running<C>,
) -> Result<bool, NoMemory>
    ensures { IfOk result (λ done. Does (spec.assigned computed [] inputs.now received.now targets.now exprs.now r.old) done r.new) }
{
    let Some(to) = places(alloc, targets, inputs, received, r)? else {
        return Ok(false);
    };
    let Some(from) = values(alloc, exprs, inputs, received, r)? else {
        return Ok(false);
    };
    write_all(&mut r.cells, to.as_slice(), from.as_slice());
    Ok(true)
}

pub(crate) fn choose<C: Choices>(
    target: &Target,
    inputs: &[i64],
    received: &[i64],
    r: &mut Running<C>,
) -> Result<bool, NoMemory>
    ensures { IfOk result (λ done. Does (spec.chosen computed [] inputs.now received.now C.takes target.now r.old) done r.new) }
{
    let Some(at) = place(target, inputs, received, r) else {
        return Ok(false);
    };
    let Some(x) = r.choices.take_value(target.range)? else {
        return Ok(false);
    };
    write(&mut r.cells, at, x);
    Ok(true)
}

pub(crate) fn send<C>(
    alloc: Global,
    messages: &[Message],
    message: u32,
    given: &[Expr],
    to: u32,
    inputs: &[i64],
    received: &[i64],
    r: &mut Running<C>,
) -> Result<bool, NoMemory>
    ensures { IfOk result (λ done. Does (spec.sent computed (map wire_fields messages.now) inputs.now received.now message given.now to r.old) done r.new) }
{
    let Some(declared) = item(messages, message as usize) else {
        return Ok(false);
    };
    let Some(numbers) = values(alloc, given, inputs, received, r)? else {
        return Ok(false);
    };
    let Some(values) = fill(alloc, declared.fields.as_slice(), numbers.as_slice())? else {
        return Ok(false);
    };
    r.sends.push(Outgoing {
        to,
        message,
        values,
    })?;
    Ok(true)
}

pub(crate) fn start<C>(
    timer: u32,
    delay: &Expr,
    inputs: &[i64],
    received: &[i64],
    r: &mut Running<C>,
) -> bool
    ensures { Does (spec.started computed [] inputs.now received.now timer delay.now r.old) result r.new }
{
    let Some(delay) = value(delay, inputs, received, r) else {
        return false;
    };
    let Ok(delay) = u32::try_from(delay) else {
        return false;
    };
    set_timer(&mut r.timers, timer as usize, TimerState::Armed { delay });
    true
}

pub(crate) fn set_timer(timers: &mut List<TimerState>, at: usize, state: TimerState)
    ensures { timers.new ≡ slice_set timers.old at state }
{
    if at < timers.len() {
        timers.set(at, state);
    }
}
