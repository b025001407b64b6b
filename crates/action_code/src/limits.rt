//! Limits and names of declarations.

ghost use Rattle.std.specs.Prelude.{◌≡◌, ◌≤◌, ◌^◌, ◌++◌, IfOk, map, sum, length};
ghost use Rattle.std.specs.List.{list_all};
ghost use Rattle.register_code.specs.declared.code.CodeProcess.{CodeProcess};
ghost use Rattle.register_code.specs.Declarations as spec;

use register_code::{Code, CodeAction, CodeMessage, CodeProcess, CodeVariable};
use std::alloc::Global;
use tap_base::{List, NoMemory, Text};
use tap_names::Table;

fn is_word_byte(byte: u8) -> bool
    ensures { result ≡ spec.in_name byte }
{
    byte.is_ascii_alphabetic() | byte.is_ascii_digit() | (byte == b'_')
}

/// 1 to 64 bytes: a letter, then letters, digits or _.
fn are_word_bytes(bytes: &[u8]) -> bool
    ensures { result ≡ list_all spec.in_name bytes.now }
{
    bytes.iter().all(|byte| is_word_byte(*byte))
}

fn is_name(name: &[u8]) -> bool
    ensures { result ≡ spec.is_name name.now }
{
    if name.is_empty() {
        return false;
    }
    name[0].is_ascii_alphabetic() & are_word_bytes(&name[1..]) & (name.len() <= 64)
}

fn are_names(names: &[Text]) -> bool
    ensures { result ≡ list_all spec.is_name names.now }
{
    names.iter().all(|name| is_name(name.as_str().as_bytes()))
}

/// No two names are one.
fn all_differ(alloc: Global, names: &[Text]) -> Result<bool, NoMemory>
    ensures { IfOk result (λ differ. differ ≡ spec.all_differ names.now) }
{
    let mut known: Table<()> = Table::new(alloc);
    'names: for name in names {
        if known.has(name.as_str()) {
            return Ok(false);
        }
        known.declare(alloc, name.as_str(), ())?;
    }
    Ok(true)
}

/// The names of inputs and variables, in order.
fn names_of(alloc: Global, process: &CodeProcess) -> Result<List<Text>, NoMemory>
    ensures { IfOk result (λ names. names ≡ spec.names_of process.now) }
{
    let mut names = List::new(alloc);
    for input in process.inputs.as_slice() {
        names.push(Text::copy_of(alloc, input.name.as_str())?)?;
    }
    for variable in process.variables.as_slice() {
        names.push(Text::copy_of(alloc, variable.name.as_str())?)?;
    }
    Ok(names)
}

fn process_names(alloc: Global, code: &Code) -> Result<List<Text>, NoMemory>
    ensures { IfOk result (λ names. names ≡ map (λ (p : CodeProcess). p.name) code.now.processes) }
{
    let mut names = List::new(alloc);
    for process in code.processes.as_slice() {
        names.push(Text::copy_of(alloc, process.name.as_str())?)?;
    }
    Ok(names)
}

fn action_limits(action: &CodeAction) -> bool
    ensures { result ≡ spec.action_limits action.now }
{
    (action.temporaries.len() < 4294967296)
        & (action.guard.len() < 4294967296)
        & (action.body.len() < 4294967296)
}

/// The cells are at most so many.
#[tactic(auto)]
fn cells_within(variables: &[CodeVariable]) -> bool
    ensures { result ≡ spec.cells_within variables.now }
{
    let mut cells: u32 = 0;
    for variable in variables {
        cells += variable.cells as u32;
        if cells > 4096 {
            return false;
        }
    }
    true
}

fn text_is_name(name: &Text) -> bool
    ensures { result ≡ spec.is_name name.now }
{
    is_name(name.as_str().as_bytes())
}

/// How many inputs, variables, cells, timers and actions there may be.
fn counts_fit(process: &CodeProcess) -> bool
    ensures { result ≡ spec.counts_fit process.now }
{
    (process.inputs.len() <= 256)
        & (process.variables.len() <= 65535)
        & cells_within(process.variables.as_slice())
        & (process.timers <= 32)
        & (process.actions.len() <= 256)
}

/// All are names, and no two are one.
fn names_fit(alloc: Global, names: &[Text]) -> Result<bool, NoMemory>
    ensures { IfOk result (λ fit. fit ≡ spec.names_fit names.now) }
{
    let differ = all_differ(alloc, names)?;
    Ok(are_names(names) & differ)
}

fn actions_limits(actions: &[CodeAction]) -> bool
    ensures { result ≡ list_all spec.action_limits actions.now }
{
    actions.iter().all(|action| action_limits(action))
}

fn process_limits(alloc: Global, process: &CodeProcess) -> Result<bool, NoMemory>
    ensures { IfOk result (λ kept. kept ≡ spec.process_limits process.now) }
{
    let names = names_of(alloc, process)?;
    let fit = names_fit(alloc, names.as_slice())?;
    Ok(
        text_is_name(&process.name)
            & counts_fit(process)
            & fit
            & actions_limits(process.actions.as_slice()),
    )
}

fn message_limits(message: &CodeMessage) -> bool
    ensures { result ≡ spec.message_limits message.now }
{
    text_is_name(&message.name) & (message.fields.len() <= 256)
}

fn messages_limits(messages: &[CodeMessage]) -> bool
    ensures { result ≡ list_all spec.message_limits messages.now }
{
    messages.iter().all(|message| message_limits(message))
}

fn program_counts_fit(code: &Code) -> bool
    ensures { result ≡ spec.program_counts_fit code.now }
{
    (code.messages.len() <= 256) & (0 < code.processes.len()) & (code.processes.len() <= 64)
}

fn processes_limits(alloc: Global, processes: &[CodeProcess]) -> Result<bool, NoMemory>
    ensures { IfOk result (λ kept. kept ≡ list_all spec.process_limits processes.now) }
{
    for process in processes {
        if !process_limits(alloc, process)? {
            return Ok(false);
        }
    }
    Ok(true)
}

/// Limits and names.
pub(crate) fn limits_kept(alloc: Global, code: &Code) -> Result<bool, NoMemory>
    ensures { IfOk result (λ kept. kept ≡ spec.limits_kept code.now) }
{
    let names = process_names(alloc, code)?;
    let processes = processes_limits(alloc, code.processes.as_slice())?;
    let differ = all_differ(alloc, names.as_slice())?;
    Ok(program_counts_fit(code) & messages_limits(code.messages.as_slice()) & processes & differ)
}
