//! From a tree to the system that it names.

ghost use Rattle.std.specs.Prelude.{◌≤◌, length, IfOk};
ghost use Rattle.tap_names.specs.Limits.{most_messages, most_processes};
ghost use Rattle.tap_names.specs.Refusals.{Judges};
ghost use Rattle.tap_types.specs.Given.{HasParts};
ghost use Rattle.tap_types.specs.Offences.{offences_of};
ghost use Rattle.tap_base.specs.Resolved.{IsResolved};
ghost use Rattle.tap_types.specs.Systems.{system_of, tree_of};

use crate::fields::field_tables;
use crate::processes::type_processes;
use crate::receivers::{Receivers, numbers_of};
use crate::sends::check_sends;
use std::alloc::Global;
use tap_base::{Ast, AstMessage, AstProcess, System};
use tap_names::{
    DeclaredMessages, DeclaredProcesses, TypeFault, declare_messages, declare_processes,
};

/// The system that the tree names, with each name in it looked up.
///
/// `Refused` has the tree's first offence: declarations are judged in text order, then the uses of
/// names by process, action, guard and statement, then sends that nobody receives. `NoMemory` comes
/// where memory was refused. Of a tree that a text has, the system is whole: all that it names by
/// number is there, its truths are truths, and it keeps the limits.
pub fn resolve(alloc: Global, tree: &Ast) -> Result<System, TypeFault>
    ensures judged { Judges (offences_of tree.now) (system_of tree.now) result }
    ensures whole { HasParts tree.now → IfOk result IsResolved }
    ensures few { IfOk result (λ s. (length s.messages ≤ most_messages) × (length s.processes ≤ most_processes)) }
{
    resolve_parts(alloc, tree.messages.as_slice(), tree.processes.as_slice())
}

fn resolve_parts(
    alloc: Global,
    messages: &[AstMessage],
    processes: &[AstProcess],
) -> Result<System, TypeFault>
    ensures few { IfOk result (λ s. (length s.messages ≤ most_messages) × (length s.processes ≤ most_processes)) }
    ensures judged { let tree = tree_of messages.now processes.now in
        Judges (offences_of tree) (system_of tree) result }
{
    let of_messages = declare_messages(alloc, messages)?;
    let DeclaredMessages {
        messages: resolved,
        table: message_table,
    } = of_messages;
    let of_processes = declare_processes(alloc, &message_table, processes)?;
    let DeclaredProcesses {
        declared,
        table: process_table,
    } = of_processes;
    let field_tables = field_tables(alloc, messages)?;
    let typed = type_processes(
        alloc,
        messages,
        &message_table,
        field_tables.as_slice(),
        &process_table,
        processes,
        declared,
    )?;
    let receivers = Receivers {
        messages: &message_table,
        processes: &process_table,
        numbers: numbers_of(alloc, typed.as_slice())?,
    };
    check_sends(&receivers, processes)?;
    Ok(System {
        messages: resolved,
        processes: typed,
    })
}
