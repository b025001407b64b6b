//! Processes that a tree declares.

ghost use Rattle.std.specs.Prelude.{◌≡◌, ◌<◌, false, length, slice_get, IfOk};
ghost use Rattle.tap_names.specs.Declarations.{too_many_actions};
ghost use Rattle.tap_names.specs.Limits.{most_actions, most_processes};
ghost use Rattle.tap_names.specs.Processes.{DeclaresProcesses};
ghost use Rattle.tap_base.specs.Offences.{Clears};
ghost use Rattle.tap_names.specs.Tables.{entries_of, is_among, names_in};
ghost use Rattle.tap_names.specs.inner.Declares.{DeclaresInner, DeclaresProcess};

use crate::fault::{TypeFault, refusal};
use crate::inputs::{DeclaredInputs, declare_constants, declare_inputs};
use crate::limits::{MOST_ACTIONS, MOST_PROCESSES};
use crate::named::Named;
use crate::naming::{check_count, check_new};
use crate::table::Table;
use crate::timers::declare_timers;
use crate::variables::declare_variables;
use std::alloc::Global;
use tap_base::{AstAction, AstProcess, List, Refusal, RefusalCode, Var, item};

/// What a process declares: its inputs and its variables in text order, and the tables of its names. The
/// names of the others are its inputs, then its variables, then its timers.
#[derive(Drop)]
pub struct Declared {
    pub inputs: List<Var>,
    pub vars: List<Var>,
    pub constants: Table<Named>,
    pub others: Table<Named>,
}

/// What each process of a tree declares, in text order, and the table of their names in the same order.
#[derive(Drop)]
pub struct DeclaredProcesses {
    pub declared: List<Declared>,
    pub table: Table<()>,
}

/// What the processes of a tree declare, behind the messages of the table, with the table of their names.
///
/// `Refused` has the first offence among them, in text order. At each name it is X1 where the name is too
/// long, N2 where one before it in its space has it, X1 where there are too many; then at an input or a
/// variable N1 for a bound that names no constant, X2 for its range, its initial value or an array without
/// cells, and X1 where the cells are too many. X1 for the actions stands at the first one too many.
/// `NoMemory` comes from refused memory alone.
pub fn declare_processes(
    alloc: Global,
    messages: &Table<()>,
    processes: &[AstProcess],
) -> Result<DeclaredProcesses, TypeFault>
    ensures { DeclaresProcesses (names_in (entries_of messages.now)) processes.now result }
{
    let mut table = Table::new(alloc);
    let mut declared = List::new(alloc);
    'processes: for at in 0..processes.len() {
        let process = &processes[at];
        declared.push(declare_process(alloc, messages, &table, process)?)?;
        table.declare(alloc, process.name.text.as_str(), ())?;
    }
    Ok(DeclaredProcesses { declared, table })
}

/// A process behind the messages and the processes of two tables.
#[tactic(auto, using(crate::proofs::Faults::front, crate::proofs::Faults::back, crate::proofs::Faults::refused))]
fn declare_process(
    alloc: Global,
    messages: &Table<()>,
    table: &Table<()>,
    process: &AstProcess,
) -> Result<Declared, TypeFault>
    ensures judged { DeclaresProcess (names_in (entries_of messages.now)) (names_in (entries_of table.now)) process.now result }
    ensures fresh { IfOk result (λ _. is_among process.now.name.text (names_in (entries_of table.now)) ≡ false) }
    ensures room { IfOk result (λ _. length (entries_of table.now) < most_processes) }
{
    check_new(messages, table, &process.name)?;
    check_count(table.len(), MOST_PROCESSES, process.name.place)?;
    let declared = declare_inner(alloc, process)?;
    Ok(declared)
}

/// What a process declares.
fn declare_inner(alloc: Global, process: &AstProcess) -> Result<Declared, TypeFault>
    ensures { DeclaresInner process.now result }
{
    let constants = declare_constants(alloc, process.consts.as_slice())?;
    let inputs = declare_inputs(alloc, &constants, process.inputs.as_slice())?;
    let DeclaredInputs {
        inputs,
        table: mut others,
    } = inputs;
    let vars = declare_variables(alloc, &constants, &mut others, process.vars.as_slice())?;
    declare_timers(alloc, &constants, &mut others, process.timers.as_slice())?;
    check_actions(process.actions.as_slice())?;
    Ok(Declared {
        inputs,
        vars,
        constants,
        others,
    })
}

/// Whether there are not too many actions.
fn check_actions(actions: &[AstAction]) -> Result<(), Refusal>
    ensures { Clears (too_many_actions (slice_get actions.now most_actions)) result }
{
    match item(actions, MOST_ACTIONS) {
        None => Ok(()),
        Some(action) => Err(refusal(RefusalCode::X1, action.place)),
    }
}
