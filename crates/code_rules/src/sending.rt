//! A send fits its message and its receiver.

ghost use Rattle.std.specs.Prelude.{◌≡◌, ◌==◌, ◌&&◌, not, true, take, drop, slice_get};
ghost use Rattle.std.specs.List.{list_all, list_any};
ghost use Rattle.register_code.specs.Declarations.{field_fits, fields_fit};
ghost use Rattle.register_code.specs.Sending as spec;
ghost use Rattle.register_code.specs.Sites.{holds_of};
ghost use Rattle.code_rules.specs.Places.{seen};

use crate::place::PartPlace;
use crate::ranges::lies_in;
use crate::results::field_range;
use register_code::{Code, CodeAction, CodeField, CodeKind, Instr};
use tap_base::{Range, item};

/// So many from a place on, as far as there are.
fn run_of(ranges: &[Range], first: u32, count: u32) -> &[Range]
    ensures { result.now ≡ take count (drop first ranges.now) }
{
    let from = ranges.len().min(first as usize);
    let behind = &ranges[from..];
    let to = behind.len().min(count as usize);
    &behind[..to]
}

/// One range for each free field, and each lies within its field's.
#[tactic(auto, using(crate::proofs::Fields::fields_ruled))]
fn fit_fields(fields: &[CodeField], ranges: &[Range]) -> bool
    requires { list_all field_fits fields.now ≡ true }
    ensures { result ≡ spec.fit_fields (spec.free_fields fields.now) ranges.now }
{
    let mut at = 0;
    for field in fields {
        if field.fixed.is_none() {
            if at >= ranges.len() {
                return false;
            }
            if !lies_in(ranges[at], field_range(field)) {
                return false;
            }
            at += 1;
        }
    }
    at == ranges.len()
}

/// The action receives this message from this process.
fn is_receive(message: u32, from: u32, action: &CodeAction) -> bool
    ensures { result ≡ spec.is_receive message from action.now }
{
    match action.kind {
        CodeKind::Receive => (action.a as u32 == message) & (action.b as u32 == from),
        _ => false,
    }
}

fn is_received(actions: &[CodeAction], message: u32, from: u32) -> bool
    ensures { result ≡ list_any (spec.is_receive message from) actions.now }
{
    actions
        .iter()
        .any(|action| is_receive(message, from, action))
}

fn values_fit(code: &Code, ranges: &[Range], message: u32, first: u32, count: u32) -> bool
    requires { fields_fit code.now ≡ true }
    ensures { result ≡ holds_of (slice_get code.now.messages message) (λ m. spec.fit_fields (spec.free_fields m.fields) (take count (drop first ranges.now))) }
{
    match item(code.messages.as_slice(), message as usize) {
        None => true,
        Some(message) => fit_fields(message.fields.as_slice(), run_of(ranges, first, count)),
    }
}

fn receiver_fits(code: &Code, message: u32, from: u32, to: u32) -> bool
    ensures { result ≡ holds_of (slice_get code.now.processes to) (λ p. list_any (spec.is_receive message from) p.actions) }
{
    match item(code.processes.as_slice(), to as usize) {
        None => true,
        Some(process) => is_received(process.actions.as_slice(), message, from),
    }
}

/// A send fits its message and its receiver.
pub(crate) fn can_send(code: &Code, place: &PartPlace, instrs: &[Instr], instr: Instr) -> bool
    requires { fields_fit code.now ≡ true }
    ensures { result ≡ spec.can_send (seen code.now instrs.now place.now) instr }
{
    match instr {
        Instr::Send {
            message,
            first,
            count,
            to,
        } => {
            values_fit(code, place.ranges.as_slice(), message, first, count)
                & (to != place.process)
                & receiver_fits(code, message, place.process, to)
        }
        _ => true,
    }
}
