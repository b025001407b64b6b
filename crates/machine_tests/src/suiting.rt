//! Whether an action can be run with what it received.

ghost use Rattle.std.specs.Prelude.{◌≡◌, ◌<◌, ◌≤◌, ◌^◌, ◌-ℤ◌, pos, true, map, length, slice_get, Some};
ghost use Rattle.tap_base.specs.Ranges.{AreAllIn};
ghost use Rattle.byte_meaning.specs.Messages.{AreFields};
ghost use Rattle.register_code.specs.declared.code.CodeKind.TheVariants as kind;
ghost use Rattle.register_code.specs.Fields.{code_field};
ghost use Rattle.register_code.specs.Registers.{inputs_ranges};
ghost use Rattle.register_code.specs.Verified.{received_fields};
ghost use Rattle.sound_code.specs.Fitting.{ReceivedFit};
ghost use Rattle.action_machine.specs.Machines.{HasGuard};
ghost use Rattle.machine_tests.specs.Suiting.{IsInField, IsInInput, Suits};

use action_code::{Code, CodeAction, CodeField, CodeInput, CodeKind, CodeMessage, CodeProcess};

fn is_local(of: CodeKind) -> bool
    ensures { result ≡ true → of ≡ kind.Local }
{
    match of {
        CodeKind::Local => true,
        _ => false,
    }
}

fn is_within(input: &CodeInput, x: i64) -> bool
    ensures { result ≡ true → IsInInput input.now x }
{
    input.lo <= x && x <= input.hi
}

/// The greatest number of so many bits.
fn greatest(width: u8) -> i64
    requires { width ≤ 63 }
    ensures { result ≡ pos (2 ^ width) -ℤ pos 1 }
{
    ((1u64 << width) - 1) as i64
}

fn is_in_field(field: CodeField, x: i64) -> bool
    ensures { result ≡ true → IsInField field x }
{
    match field.fixed {
        None => field.width <= 63 && 0 <= x && x <= greatest(field.width),
        Some(value) => 0 <= x && x as u64 == value,
    }
}

fn number_at(xs: &[i64], at: usize) -> i64
    requires { at < length xs.now }
    ensures { slice_get xs.now at ≡ Some result }
{
    xs[at]
}

fn input_at(inputs: &[CodeInput], at: usize) -> &CodeInput
    requires { at < length inputs.now }
    ensures { slice_get inputs.now at ≡ Some result.now }
{
    &inputs[at]
}

fn field_at(fields: &[CodeField], at: usize) -> CodeField
    requires { at < length fields.now }
    ensures { slice_get fields.now at ≡ Some result }
{
    fields[at]
}

/// One value for each input, within its range.
fn all_within(inputs: &[CodeInput], given: &[i64]) -> bool
    ensures { result ≡ true → AreAllIn (inputs_ranges inputs.now) given.now }
{
    if given.len() != inputs.len() {
        return false;
    }
    for at in 0..inputs.len() {
        if !is_within(input_at(inputs, at), number_at(given, at)) {
            return false;
        }
    }
    true
}

/// One value for each field, within its range.
fn all_in_fields(fields: &[CodeField], given: &[i64]) -> bool
    ensures { result ≡ true → AreFields (map code_field fields.now) given.now }
{
    if given.len() != fields.len() {
        return false;
    }
    for at in 0..fields.len() {
        if !is_in_field(field_at(fields, at), number_at(given, at)) {
            return false;
        }
    }
    true
}

fn process_at(code: &Code, number: u32) -> &CodeProcess
    requires { number < length code.now.processes }
    ensures { slice_get code.now.processes number ≡ Some result.now }
{
    &code.processes.as_slice()[number as usize]
}

fn action_at(process: &CodeProcess, number: u32) -> &CodeAction
    requires { number < length process.now.actions }
    ensures { slice_get process.now.actions number ≡ Some result.now }
{
    &process.actions.as_slice()[number as usize]
}

fn message_at(code: &Code, number: u16) -> &CodeMessage
    requires { number < length code.now.messages }
    ensures { slice_get code.now.messages number ≡ Some result.now }
{
    &code.messages.as_slice()[number as usize]
}

/// The values are those of the message that the action receives.
fn hears(code: &Code, action: &CodeAction, received: &[i64]) -> bool
    ensures { result ≡ true → ReceivedFit (received_fields code.now action.now) received.now }
{
    match action.kind {
        CodeKind::Receive => {
            if code.messages.len() <= action.a as usize {
                return false;
            }
            all_in_fields(message_at(code, action.a).fields.as_slice(), received)
        }
        _ => true,
    }
}

/// The action is one with a local guard.
pub fn is_guarded(code: &Code, process: u32, action: u32) -> bool
    ensures { result ≡ true → HasGuard code.now process action }
{
    if code.processes.len() <= process as usize {
        return false;
    }
    let process = process_at(code, process);
    if process.actions.len() <= action as usize {
        return false;
    }
    is_local(action_at(process, action).kind)
}

/// The process has such inputs and so many timers, and the action receives such values.
pub fn suits(
    code: &Code,
    process: u32,
    action: u32,
    inputs: &[i64],
    timers: u32,
    received: &[i64],
) -> bool
    ensures { result ≡ true → Suits code.now process action inputs.now timers received.now }
{
    if code.processes.len() <= process as usize {
        return false;
    }
    let process = process_at(code, process);
    if process.actions.len() <= action as usize {
        return false;
    }
    let action = action_at(process, action);
    if process.timers as u32 != timers {
        return false;
    }
    if !hears(code, action, received) {
        return false;
    }
    all_within(process.inputs.as_slice(), inputs)
}
