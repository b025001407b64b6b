//! What an action can read, as it is found.

ghost use Rattle.std.specs.Prelude.{◌≡◌, ◌++◌, ◌≤◌, ◌^◌, IfOk, OnOk, map, replicate};
ghost use Rattle.tap_base.specs.Interval.{field_range};
ghost use Rattle.tap_base.specs.Lists.{Each};
ghost use Rattle.tap_base.specs.Ranges.{ranges_of};
ghost use Rattle.tap_base.specs.Resolved.{IsField, IsMessage};
ghost use Rattle.tap_base.specs.Scope as spec;

use std::alloc::Global;
use tap_base::{Field, Guard, List, Message, NoMemory, Range, Var, item};

/// The ranges of the cells and of the inputs of a process, and of the fields of a received message.
#[derive(Debug, Drop)]
pub struct Reads {
    pub cells: List<Range>,
    pub inputs: List<Range>,
    pub fields: List<Range>,
}

fn push_cells(all: &mut List<Range>, count: u32, range: Range) -> Result<(), NoMemory>
    ensures { OnOk result (all.new ≡ all.old ++ replicate count range) }
{
    for _i in 0..count {
        all.push(range)?;
    }
    Ok(())
}

pub(crate) fn cell_ranges(alloc: Global, vars: &[Var]) -> Result<List<Range>, NoMemory>
    ensures { IfOk result (λ l. l ≡ ranges_of vars.now) }
{
    let mut all = List::new(alloc);
    for var in vars {
        push_cells(&mut all, var.cells, var.range)?;
    }
    Ok(all)
}

pub(crate) fn input_ranges(alloc: Global, inputs: &[Var]) -> Result<List<Range>, NoMemory>
    ensures { IfOk result (λ l. l ≡ spec.input_ranges inputs.now) }
{
    let mut all = List::new(alloc);
    for input in inputs {
        all.push(input.range)?;
    }
    Ok(all)
}

/// A power of two.
fn power(width: u32) -> u64
    requires { width ≤ 63 }
    ensures value { result ≡ 2 ^ width }
    ensures some { 1 ≤ result }
    ensures most { result ≤ 2 ^ 63 }
{
    1 << width
}

/// The values of a field of 1 to 63 bits.
pub(crate) fn values_of(width: u32, fixed: Option<i64>) -> Range
    requires some { 1 ≤ width }
    requires most { width ≤ 63 }
    ensures { result ≡ field_range (record { width = width; fixed = fixed }) }
{
    match fixed {
        Some(x) => Range { lo: x, hi: x },
        None => Range {
            lo: 0,
            hi: (power(width) - 1) as i64,
        },
    }
}

fn field_ranges(alloc: Global, fields: &[Field]) -> Result<List<Range>, NoMemory>
    requires { Each IsField fields.now }
    ensures { IfOk result (λ l. l ≡ map spec.value_range fields.now) }
{
    let mut all = List::new(alloc);
    for field in fields {
        all.push(values_of(field.width, field.fixed))?;
    }
    Ok(all)
}

/// The ranges of the fields that a guard receives.
pub(crate) fn received_ranges(
    alloc: Global,
    messages: &[Message],
    guard: &Guard,
) -> Result<List<Range>, NoMemory>
    requires { Each IsMessage messages.now }
    ensures { IfOk result (λ l. l ≡ map spec.value_range (spec.received_fields messages.now guard.now)) }
{
    match guard {
        Guard::Receive { message, from: _ } => match item(messages, *message as usize) {
            Some(message) => field_ranges(alloc, message.fields.as_slice()),
            None => Ok(List::new(alloc)),
        },
        _ => Ok(List::new(alloc)),
    }
}
