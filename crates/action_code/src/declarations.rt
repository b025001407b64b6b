//! Ranges, widths and guards of declarations.

ghost use Rattle.std.specs.Prelude.{◌≡◌};
ghost use Rattle.std.specs.List.{list_all};
ghost use Rattle.register_code.specs.Declarations as spec;
ghost use Rattle.register_code.specs.Registers.{register_ranges};

use code_rules::{both_in, range_at};
use register_code::{
    Code, CodeAction, CodeField, CodeInput, CodeKind, CodeMessage, CodeProcess, CodeTemporary,
    CodeVariable,
};
use tap_base::Range;

fn field_fits(field: &CodeField) -> bool
    ensures { result ≡ spec.field_fits field.now }
{
    if field.width < 1 || field.width > 63 {
        return false;
    }
    match field.fixed {
        None => true,
        Some(value) => value < 1u64 << field.width,
    }
}

fn message_fits(message: &CodeMessage) -> bool
    ensures { result ≡ list_all spec.field_fits message.now.fields }
{
    message
        .fields
        .as_slice()
        .iter()
        .all(|field| field_fits(field))
}

pub(crate) fn fields_fit(code: &Code) -> bool
    ensures { result ≡ spec.fields_fit code.now }
{
    code.messages
        .as_slice()
        .iter()
        .all(|message| message_fits(message))
}

fn input_fits(input: &CodeInput) -> bool
    ensures { result ≡ spec.input_fits input.now }
{
    input.lo <= input.hi
}

fn variable_fits(variable: &CodeVariable) -> bool
    ensures { result ≡ spec.variable_fits variable.now }
{
    (0 < variable.cells) & (variable.lo <= variable.initial) & (variable.initial <= variable.hi)
}

fn inputs_fit(inputs: &[CodeInput]) -> bool
    ensures { result ≡ list_all spec.input_fits inputs.now }
{
    inputs.iter().all(|input| input_fits(input))
}

fn variables_fit(variables: &[CodeVariable]) -> bool
    ensures { result ≡ list_all spec.variable_fits variables.now }
{
    variables.iter().all(|variable| variable_fits(variable))
}

pub(crate) fn values_fit(process: &CodeProcess) -> bool
    ensures { result ≡ spec.values_fit process.now }
{
    inputs_fit(process.inputs.as_slice()) & variables_fit(process.variables.as_slice())
}

fn temporary_fits(temporary: &CodeTemporary) -> bool
    ensures { result ≡ spec.temporary_fits temporary.now }
{
    temporary.lo <= temporary.hi
}

pub(crate) fn temporaries_fit(action: &CodeAction) -> bool
    ensures { result ≡ spec.temporaries_fit action.now }
{
    action
        .temporaries
        .as_slice()
        .iter()
        .all(|temporary| temporary_fits(temporary))
}

/// A guard's kind and its numbers agree.
pub(crate) fn guard_fits(
    code: &Code,
    number: u32,
    process: &CodeProcess,
    action: &CodeAction,
    ranges: &[Range],
) -> bool
    requires { ranges.now ≡ register_ranges process.now action.now.temporaries }
    ensures { result ≡ spec.guard_fits code.now number process.now action.now }
{
    match action.kind {
        CodeKind::Local => {
            (action.a == 0)
                & (action.b == 0)
                & both_in(
                    range_at(ranges, action.result),
                    Some(Range { lo: 0, hi: 1 }),
                )
        }
        CodeKind::Receive => {
            ((action.a as usize) < code.messages.len())
                & ((action.b as usize) < code.processes.len())
                & (action.b as u32 != number)
                & action.guard.as_slice().is_empty()
                & (action.result == 0)
        }
        CodeKind::Timeout => {
            (action.a < process.timers)
                & (action.b == 0)
                & action.guard.as_slice().is_empty()
                & (action.result == 0)
        }
    }
}
