//! What bytes mean.

ghost use Rattle.std.specs.Prelude.{◌≡◌, IfOk, flat_map};
ghost use Rattle.tap_base.specs.Lists.{Each};
ghost use Rattle.tap_base.specs.Resolved.{IsMessage};
ghost use Rattle.byte_meaning.specs.Messages.{Receives};
ghost use Rattle.tap_exec.specs.Semantics.{guard_semantics, messages_of, semantics_of};
ghost use Rattle.byte_meaning.specs.Meaning.{Means};
ghost use Rattle.byte_meaning.specs.Reading.{as_list, heard_by, meaning, meaning_among, spelled_message};

use crate::cell::Cell;
use crate::reading::values_spelled;
use std::alloc::Global;
use tap_base::{Action, Guard, NoMemory, System, item};

/// The message of this number, where the bytes spell it.
fn spelled_message(
    alloc: Global,
    system: &System,
    message: u32,
    bytes: &[u8],
) -> Result<Option<Cell>, NoMemory>
    requires { Each IsMessage system.now.messages }
    ensures { IfOk result (λ found. as_list found ≡ spelled_message (messages_of system.now) bytes.now message) }
{
    let Some(declared) = item(system.messages.as_slice(), message as usize) else {
        return Ok(None);
    };
    let Some(values) = values_spelled(alloc, declared.fields.as_slice(), bytes)? else {
        return Ok(None);
    };
    Ok(Some(Cell::Msg { message, values }))
}

/// The message that an action with this guard receives, where the bytes from this process spell it.
fn heard_by(
    alloc: Global,
    system: &System,
    guard: &Guard,
    from: u32,
    bytes: &[u8],
) -> Result<Option<Cell>, NoMemory>
    requires { Each IsMessage system.now.messages }
    ensures { IfOk result (λ found. as_list found ≡ flat_map (spelled_message (messages_of system.now) bytes.now) (heard_by from (guard_semantics guard.now))) }
{
    match guard {
        Guard::Receive {
            message,
            from: peer,
        } if *peer == from => spelled_message(alloc, system, *message, bytes),
        _ => Ok(None),
    }
}

/// The first message that these actions receive and that the bytes spell.
fn first_heard(
    alloc: Global,
    system: &System,
    actions: &[Action],
    from: u32,
    bytes: &[u8],
) -> Result<Cell, NoMemory>
    requires { Each IsMessage system.now.messages }
    ensures { IfOk result (λ cell. cell ≡ meaning_among (messages_of system.now) (flat_map (λ a. heard_by from (guard_semantics a.guard)) actions.now) bytes.now) }
{
    for action in actions {
        if let Some(cell) = heard_by(alloc, system, &action.guard, from, bytes)? {
            return Ok(cell);
        }
    }
    Ok(Cell::Error)
}

/// What bytes from one process to another mean: the message that they spell, of those that the
/// receiver receives from the sender, or an error where they spell none.
///
/// Messages have to be such as `resolve` gives: at most 256 fields, each with 1 to 63 bits and with room
/// for its fixed value. Of the processes nothing is asked: bytes to one that is not there are an error.
/// `NoMemory` comes where memory was refused.
pub fn meaning(
    alloc: Global,
    system: &System,
    from: u32,
    to: u32,
    bytes: &[u8],
) -> Result<Cell, NoMemory>
    requires { Each IsMessage system.now.messages }
    ensures exact { IfOk result (λ cell. cell ≡ meaning (semantics_of system.now) from to bytes.now) }
    ensures means { IfOk result (λ cell. Means (messages_of system.now) (Receives (semantics_of system.now)) from to bytes.now cell) }
{
    let Some(process) = item(system.processes.as_slice(), to as usize) else {
        return Ok(Cell::Error);
    };
    first_heard(alloc, system, process.actions.as_slice(), from, bytes)
}
