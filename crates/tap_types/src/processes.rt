//! Processes whose names are declared.

ghost use Rattle.std.specs.Prelude.{◌≡◌, ◌≤◌, ◌<◌, ◌∷◌, length};
ghost use Rattle.tap_types.specs.ActionOffences.{process_scope, process_uses};
ghost use Rattle.tap_names.specs.Limits.{most_processes};
ghost use Rattle.tap_base.specs.ListWords.{by_number};
ghost use Rattle.tap_names.specs.Processes.{AllDeclared, IsDeclared};
ghost use Rattle.tap_types.specs.inner.Listed.{AreListed};
ghost use Rattle.tap_names.specs.Refusals.{Judges};
ghost use Rattle.tap_types.specs.Systems.{process_of, processes_of};
ghost use Rattle.tap_names.specs.Tables.{entries_of, names_in};

use crate::actions::type_actions;
use crate::scope::Names;
use std::alloc::Global;
use tap_base::{AstMessage, AstProcess, List, Process, Text};
use tap_names::{Declared, Table, TypeFault};

/// The processes, each with what it declares.
pub fn type_processes(
    alloc: Global,
    messages: &[AstMessage],
    message_table: &Table<()>,
    field_tables: &[Table<()>],
    process_table: &Table<()>,
    processes: &[AstProcess],
    declared: List<Declared>,
) -> Result<List<Process>, TypeFault>
    requires listed { AreListed messages.now message_table.now field_tables.now process_table.now }
    requires all { AllDeclared processes.now declared }
    requires few { length processes.now ≤ most_processes }
    ensures { let names = names_in (entries_of process_table.now) in
        Judges (by_number 0 (process_uses messages.now names) processes.now) (processes_of messages.now names 0 processes.now) result }
{
    let mut found = List::new(alloc);
    let mut rest = declared;
    'processes: for at in 0..processes.len() {
        let declared = next_declared(&mut rest);
        let process = type_process(
            alloc,
            messages,
            message_table,
            field_tables,
            process_table,
            at as u32,
            &processes[at],
            declared,
        )?;
        found.push(process)?;
    }
    Ok(found)
}

/// Takes out the first.
fn next_declared(rest: &mut List<Declared>) -> Declared
    requires { 0 < length rest.old }
    ensures { rest.old ≡ result ∷ rest.new }
{
    rest.remove(0)
}

/// The process of the number, with what it declares.
fn type_process(
    alloc: Global,
    messages: &[AstMessage],
    message_table: &Table<()>,
    field_tables: &[Table<()>],
    process_table: &Table<()>,
    me: u32,
    process: &AstProcess,
    declared: Declared,
) -> Result<Process, TypeFault>
    requires listed { AreListed messages.now message_table.now field_tables.now process_table.now }
    requires declares { IsDeclared process.now declared }
    ensures { let names = names_in (entries_of process_table.now) in
        Judges (process_uses messages.now names me process.now) (process_of messages.now names me process.now) result }
{
    let Declared {
        inputs,
        vars,
        constants,
        others,
    } = declared;
    let names = Names {
        messages,
        message_table,
        field_tables,
        process_table,
        me,
        constants: &constants,
        others: &others,
        received: None,
    };
    let actions = type_actions(alloc, &names, process.actions.as_slice())?;
    Ok(Process {
        name: Text::copy_of(alloc, process.name.text.as_str())?,
        inputs,
        vars,
        timers: process.timers.len() as u32,
        actions,
    })
}
