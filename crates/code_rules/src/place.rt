//! Where the instructions of a part stand.

ghost use Rattle.std.specs.Prelude.{◌≡◌, ◌++◌, ◌-◌, ◌<◌, ◌≤◌, ◌^◌, IfOk, OnOk, map, replicate, length, take};
ghost use Rattle.tap_base.specs.Interval.{from_to};
ghost use Rattle.register_code.specs.Registers as spec;
ghost use Rattle.register_code.specs.Verified.{instrs_of};
ghost use Rattle.code_rules.specs.Places.{HasShared, IsInProcess, IsPlace, SetsRegisters};

use crate::nests::{Nests, nests_of};
use crate::truths::{count_others, others_of};
use register_code::{
    CodeAction, CodeInput, CodeKind, CodeProcess, CodeTemporary, CodeVariable, Instr, Part,
};
use std::alloc::Global;
use tap_base::{List, NoMemory, Range};

/// Where the instructions of a part stand: the process by number, how many cells, inputs and timers
/// it has, and how many registers its actions share; the ranges of all registers, and the message that
/// the action receives; and the tables by which the rules are judged.
#[derive(Debug, Drop)]
pub struct PartPlace {
    pub process: u32,
    pub cells: usize,
    pub inputs: usize,
    pub shared: usize,
    pub timers: u32,
    pub ranges: List<Range>,
    pub received: Option<u32>,
    pub part: Part,
    pub nests: Nests,
    pub others: List<usize>,
}

fn push_copies(all: &mut List<Range>, count: u16, range: Range) -> Result<(), NoMemory>
    ensures { OnOk result (all.new ≡ all.old ++ replicate count range) }
{
    for _i in 0..count {
        all.push(range)?;
    }
    Ok(())
}

fn push_cells(all: &mut List<Range>, variables: &[CodeVariable]) -> Result<(), NoMemory>
    ensures { OnOk result (all.new ≡ all.old ++ spec.variable_ranges variables.now) }
{
    for variable in variables {
        push_copies(
            all,
            variable.cells,
            Range {
                lo: variable.lo,
                hi: variable.hi,
            },
        )?;
    }
    Ok(())
}

fn push_inputs(all: &mut List<Range>, inputs: &[CodeInput]) -> Result<(), NoMemory>
    ensures { OnOk result (all.new ≡ all.old ++ spec.inputs_ranges inputs.now) }
{
    for input in inputs {
        all.push(Range {
            lo: input.lo,
            hi: input.hi,
        })?;
    }
    Ok(())
}

fn push_temporaries(all: &mut List<Range>, temporaries: &[CodeTemporary]) -> Result<(), NoMemory>
    ensures { OnOk result (all.new ≡ all.old ++ map spec.temporary_range temporaries.now) }
{
    for temporary in temporaries {
        all.push(Range {
            lo: temporary.lo,
            hi: temporary.hi,
        })?;
    }
    Ok(())
}

fn received(action: &CodeAction) -> Option<u32>
    ensures { result ≡ spec.received_message action.now }
{
    match action.kind {
        CodeKind::Receive => Some(action.a as u32),
        _ => None,
    }
}

fn instrs_of(action: &CodeAction, part: Part) -> &[Instr]
    ensures { result.now ≡ instrs_of part action.now }
{
    match part {
        Part::Guard => action.guard.as_slice(),
        Part::Body => action.body.as_slice(),
    }
}

/// The place of a process, which is none of a part yet. `NoMemory` comes where memory was refused.
pub fn process_place(
    alloc: Global,
    number: u32,
    process: &CodeProcess,
) -> Result<PartPlace, NoMemory>
    ensures { IfOk result (IsInProcess number process.now) }
{
    let mut ranges = List::new(alloc);
    push_cells(&mut ranges, process.variables.as_slice())?;
    let cells = ranges.len();
    push_inputs(&mut ranges, process.inputs.as_slice())?;
    Ok(PartPlace {
        process: number,
        cells,
        inputs: process.inputs.len(),
        shared: ranges.len(),
        timers: process.timers as u32,
        others: others_of(alloc, ranges.as_slice())?,
        ranges,
        received: None,
        part: Part::Guard,
        nests: nests_of(alloc, &[])?,
    })
}

/// Leaves out so many at the end.
fn drop_last<T: Drop>(all: &mut List<T>, count: usize)
    requires { count ≤ length all.old }
    ensures { all.new ≡ take (length all.old - count) all.old }
{
    let left = all.len() - count;
    all.items.truncate(left);
}

/// The registers of an action in place of those of another action of the process.
fn set_registers(place: &mut PartPlace, temporaries: &[CodeTemporary]) -> Result<(), NoMemory>
    requires { HasShared place.old }
    ensures { OnOk result (SetsRegisters temporaries.now place.old place.new) }
{
    let own = place.ranges.len() - place.shared;
    drop_last(&mut place.ranges, own);
    drop_last(&mut place.others, own);
    push_temporaries(&mut place.ranges, temporaries)?;
    count_others(&mut place.others, place.ranges.as_slice(), place.shared)
}

/// Goes from one part of a process to a part of any of its actions, in the time of that part's length
/// and of the number of its temporaries. `NoMemory` comes where memory was refused.
pub fn enter(
    place: &mut PartPlace,
    alloc: Global,
    number: u32,
    process: &CodeProcess,
    action: &CodeAction,
    part: Part,
) -> Result<(), NoMemory>
    requires few { length (instrs_of part action.now) < 2 ^ 32 }
    requires place { IsInProcess number process.now place.old }
    ensures { OnOk result (IsPlace number process.now action.now part place.new) }
{
    set_registers(place, action.temporaries.as_slice())?;
    place.received = received(action);
    place.part = part;
    place.nests = nests_of(alloc, instrs_of(action, part))?;
    Ok(())
}
